// What the programs that run cases share: a case is a line of numbers and a label, and then a text.
#![tactic(auto)]

ghost use Rattle.std.specs.Prelude.{◌≡◌, ◌≤◌, length};
ghost use Rattle.case_files.specs.Cases.{case_number_at, case_line_end};

use text::Parsed;

// The whole number at `at`, and the place after the blank behind it.
pub fn number_at(cases: &[u8], at: usize) -> Parsed<usize>
    requires { at ≤ length cases.now }
    ensures { (result ≡ case_number_at cases.now at) × (result.next ≤ length cases.now) }
{
    let mut value: usize = 0;
    for i in at..cases.len() {
        let b = cases[i];
        if b < b'0' || b'9' < b || 4_000_000_000 < value {
            return Parsed { value, next: i + 1 };
        }
        value = value * 10 + usize::from(b - b'0');
    }
    Parsed {
        value,
        next: cases.len(),
    }
}

// Where the line at `at` ends: at its LF or with the bytes.
pub fn line_end(cases: &[u8], at: usize) -> usize
    requires { at ≤ length cases.now }
    ensures { (result ≡ case_line_end cases.now at) × (at ≤ result) × (result ≤ length cases.now) }
{
    for i in at..cases.len() {
        if cases[i] == b'\n' {
            return i;
        }
    }
    cases.len()
}
