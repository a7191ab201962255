ghost use Rattle.std.specs.Prelude.{◌≡◌, ◌+◌, ◌≤◌, ◌<◌, length, drop};
ghost use Rattle.text.specs.Words.{word_of};
ghost use Rattle.text.specs.Rest.{end_of};
ghost use Rattle.digits.specs.Answers.{said, ends_at};
ghost use Rattle.digits.specs.Digits.{negative};
ghost use Rattle.references.specs.Reference.{item, reference_of};
ghost use Rattle.references.specs.Straight.{CornerPartIs};

use digits::{byte_at, whole_run, word_ends};
use refusals::Reason;
use text::Parsed;

// The k-th of `count`, from the first or back from the last; 0 for none.
fn item_of(back: bool, count: u32, k: u64) -> u32
    ensures { result ≡ item back count k }
{
    let n = u64::from(count);
    if k == 0 || n < k {
        return 0;
    }
    if back {
        return (n + 1 - k) as u32;
    }
    k as u32
}

// The same as `part_at`, by whether a minus stands at `at`.
fn part_from(text: &[u8], at: usize, back: bool, count: u32) -> Result<Parsed<u32>, Reason>
    requires at_in_bounds { at ≤ length text.now }
    requires back_value { back ≡ negative (drop at text.now) }
    ensures { CornerPartIs count text.now at result }
{
    let start = at + usize::from(back);
    let w = whole_run(text, start);
    let end = w.next;
    if end == start || 10 < end - start {
        return Err(Reason::Malformed);
    }
    Ok(Parsed {
        value: item_of(back, count, w.value),
        next: end,
    })
}

// A reference to one of `count` from `at` to where its digits stop, 0 where there is none such.
pub fn part_at(text: &[u8], at: usize, count: u32) -> Result<Parsed<u32>, Reason>
    requires { at ≤ length text.now }
    ensures { CornerPartIs count text.now at result }
{
    let back = byte_at(text, at) == b'-';
    part_from(text, at, back, count)
}

// The reference to one of `count` that the word at `at` is.
pub fn reference_at(text: &[u8], at: usize, count: u32) -> Result<Parsed<u32>, Reason>
    requires { at ≤ length text.now }
    ensures { said result ≡ ends_at (reference_of count (word_of (drop at text.now))) (end_of text.now at) }
{
    let part = part_at(text, at, count)?;
    if !word_ends(text, part.next) {
        return Err(Reason::Malformed);
    }
    if part.value == 0 {
        return Err(Reason::NoReferent);
    }
    Ok(part)
}
