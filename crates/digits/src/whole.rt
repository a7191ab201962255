ghost use Rattle.std.specs.Prelude.{◌≡◌, ◌≤◌, ◌<◌, length, drop};
ghost use Rattle.text.specs.Words.{word_of};
ghost use Rattle.text.specs.Rest.{end_of};
ghost use Rattle.digits.specs.Degree.{degree_of, smoothing_of};
ghost use Rattle.digits.specs.Answers.{said, ends_at};
ghost use Rattle.digits.specs.Straight.{whole_of};

use crate::{whole_run, word_ends};
use refusals::Reason;
use text::Parsed;

// The number of a word of 1 to `most` digits.
pub fn row_at(text: &[u8], at: usize, most: usize) -> Result<Parsed<u64>, Reason>
    requires { (at ≤ length text.now) × (most ≤ 10) }
    ensures { said result ≡ ends_at (whole_of most (word_of (drop at text.now))) (end_of text.now at) }
{
    let row = whole_run(text, at);
    let count = row.next - at;
    if count == 0 || most < count || !word_ends(text, row.next) {
        return Err(Reason::Malformed);
    }
    Ok(row)
}

// The degree that the word at `at` is.
pub fn degree_at(text: &[u8], at: usize) -> Result<Parsed<u32>, Reason>
    requires { at ≤ length text.now }
    ensures { said result ≡ ends_at (degree_of (word_of (drop at text.now))) (end_of text.now at) }
{
    let degree = row_at(text, at, 3)?;
    if degree.value == 0 || 20 < degree.value {
        return Err(Reason::OutOfRange);
    }
    Ok(Parsed {
        value: degree.value as u32,
        next: degree.next,
    })
}

// The smoothing number that the word at `at` is.
pub fn smoothing_at(text: &[u8], at: usize) -> Result<Parsed<u32>, Reason>
    requires { at ≤ length text.now }
    ensures { said result ≡ ends_at (smoothing_of (word_of (drop at text.now))) (end_of text.now at) }
{
    if let Some(next) = keywords::off_end(text, at) {
        return Ok(Parsed { value: 0, next });
    }
    let number = row_at(text, at, 5)?;
    if 65_535 < number.value {
        return Err(Reason::OutOfRange);
    }
    Ok(Parsed {
        value: number.value as u32,
        next: number.next,
    })
}
