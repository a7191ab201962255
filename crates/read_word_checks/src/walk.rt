ghost use Rattle.std.specs.Prelude.{◌≡◌, ◌≤◌, length, drop};
ghost use Rattle.text.specs.Rest.{rest_at};
ghost use Rattle.read_word_checks.specs.Faults.{refusal_said, seen_by, fault_in};

use crate::tests::{Tests, test_at};
use crate::word::{Seen, word_fault};
use refusals::Refusal;
use text::AfterBlanks;

// The first word from `at` on that fails its test, the tests being those of a line of `words` words.
pub fn first_fault(
    text: &[u8],
    at: usize,
    tests: Tests,
    words: usize,
    seen: Seen,
    vp: &[i32],
) -> Result<(), Refusal>
    requires { at ≤ length text.now }
    ensures { refusal_said result ≡ fault_in (seen_by seen) vp.now tests words 0 (rest_at text.now at).words }
{
    let mut i = at;
    let mut index: usize = 0;
    // No range counts the places: each word ends where it is read to.
    loop {
        match text::skip_blanks(text, i) {
            AfterBlanks::Start(p) => {
                let test = test_at(tests, words, index);
                match word_fault(text, p, test, seen, vp) {
                    Err(reason) => return Err(Refusal { reason, place: p }),
                    Ok(()) => {
                        i = text::word_end(text, p);
                        index += 1;
                    }
                }
            }
            AfterBlanks::End(_) => return Ok(()),
            AfterBlanks::Bad(_) => return Ok(()),
        }
    }
}

// The place after the first `count` words, where the line has so many.
pub fn skip(text: &[u8], at: usize, count: usize) -> usize
    requires { at ≤ length text.now }
    ensures { (result ≤ length text.now) × ((rest_at text.now result).words ≡ drop count (rest_at text.now at).words) }
{
    let mut i = at;
    for _passed in 0..count {
        match text::skip_blanks(text, i) {
            AfterBlanks::Start(p) => {
                i = text::word_end(text, p);
            }
            AfterBlanks::End(_) => return i,
            AfterBlanks::Bad(_) => return i,
        }
    }
    i
}
