// Rows of digits, and where a word ends.
#![tactic(auto)]

pub mod whole; // degrees and smoothing numbers
pub mod name;

ghost use Rattle.std.specs.Prelude.{◌≡◌, ◌+◌, ◌*◌, ◌^◌, ◌≤◌, ◌<◌, length, take, drop};
ghost use Rattle.text.specs.Words.{word_of};
ghost use Rattle.digits.specs.Digits.{nat_of};
ghost use Rattle.digits.specs.Straight.{first, is_empty, digit_of, cap, run, WholeRead, UptoRead};

use text::Parsed;

// More than this is out of range as a number and past the end as a reference, and no number that a word is read as is more.
pub const CAP: u64 = 20_000_000_005;

// The byte at `at`, LF past the end.
pub fn byte_at(text: &[u8], at: usize) -> u8
    ensures { result ≡ first (drop at text.now) }
{
    if at < text.len() { text[at] } else { b'\n' }
}

// The same within the text.
pub fn byte_in(text: &[u8], at: usize) -> u8
    requires { at < length text.now }
    ensures { result ≡ first (drop at text.now) }
{
    text[at]
}

// Whether the word ends at `at`; most often a blank or a line's end tells.
pub fn word_ends(text: &[u8], at: usize) -> bool
    ensures { result ≡ is_empty (word_of (drop at text.now)) }
{
    let b = byte_at(text, at);
    b <= 32 || !text::is_word(b)
}

// A digit's number; that of another byte is above 9.
pub fn digit(b: u8) -> u8
    ensures { result ≡ digit_of b }
{
    b.wrapping_sub(b'0')
}

// One more digit, no more than the cap.
fn push(value: u64, digit: u64) -> u64
    requires { (value ≤ 20000000005) × (digit ≤ 9) }
    ensures { result ≡ cap (value * 10 + digit) }
{
    let n = value * 10 + digit;
    if CAP <= n { CAP } else { n }
}

// The digits from `at`, as far as they go.
pub fn whole_run(text: &[u8], at: usize) -> Parsed<u64>
    requires { at ≤ length text.now }
    ensures { WholeRead text.now at result.next result.value }
{
    let mut value: u64 = 0;
    for i in at..text.len() {
        let d = digit(text[i]);
        if 9 < d {
            return Parsed { value, next: i };
        }
        value = push(value, u64::from(d));
    }
    Parsed {
        value,
        next: text.len(),
    }
}

// The first digits from `at`, as many as `most`, after those of `whole`. The loop counts from 0, so that it unrolls where `most` is a literal.
pub fn digits_upto(text: &[u8], at: usize, most: usize, whole: u64) -> Parsed<u64>
    requires most_in_bounds { at + most ≤ length text.now }
    requires most_bound { (whole + 1) * 10 ^ most ≤ 2 ^ 60 }
    ensures { UptoRead most text.now at whole result.next result.value }
{
    let mut value = whole;
    for k in 0..most {
        let d = digit(text[at + k]);
        if 9 < d {
            return Parsed {
                value,
                next: at + k,
            };
        }
        value = value * 10 + u64::from(d);
    }
    Parsed {
        value,
        next: at + most,
    }
}

// The number of the first digits from `at`, as many as `most`, after those of `value`, no more than the cap.
pub fn first_digits(text: &[u8], at: usize, most: usize, value: u64) -> u64
    requires most_in_bounds { at + most ≤ length text.now }
    requires value_bound { value ≤ 20000000005 }
    ensures { result ≡ cap (nat_of value (take most (run (drop at text.now)))) }
{
    let mut number = value;
    for i in at..at + most {
        let d = digit(text[i]);
        if 9 < d {
            return number;
        }
        number = push(number, u64::from(d));
    }
    number
}

// Where the digits from `at` end.
pub fn digits_end(text: &[u8], at: usize) -> usize
    requires { at ≤ length text.now }
    ensures { result ≡ at + length (run (drop at text.now)) }
{
    for i in at..text.len() {
        if 9 < digit(text[i]) {
            return i;
        }
    }
    text.len()
}
