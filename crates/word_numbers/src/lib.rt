// The number that a word is, in millionths.
#![tactic(auto)]

ghost use Rattle.std.specs.Prelude.{◌≡◌, ◌+◌, ◌*◌, ◌-◌, ◌/◌, ◌^◌, ◌≤◌, ◌<◌, length, drop, cond};
ghost use Rattle.text.specs.Words.{word_of};
ghost use Rattle.text.specs.Rest.{end_of};
ghost use Rattle.digits.specs.Said.{says};
ghost use Rattle.digits.specs.Answers.{said, ends_at};
ghost use Rattle.decimals.specs.Number.{number_of, is_sign};
ghost use Rattle.lists.specs.Signs.{with_sign};
ghost use Rattle.word_numbers.specs.Answers.{ExactIs};
ghost use Rattle.decimals.specs.Straight.{magnitude_of, pointed, size_of, settle_of, DecimalsAhead, MantissaAhead};
ghost use Rattle.digits.specs.Straight.{first, WholeRead, UptoRead};

use decimals::exponent::{is_e, scaled, shifted, sign_length};
use digits::{byte_at, byte_in, digits_end, digits_upto, whole_run, word_ends};
use refusals::Reason;
use text::Parsed;

// At most seven digits from `at`, after those of `whole`.
fn seven(text: &[u8], at: usize, whole: u64) -> Parsed<u64>
    requires { (at ≤ length text.now) × (whole ≤ 20000000005) }
    ensures { UptoRead 7 text.now at whole result.next result.value }
{
    let left = text.len() - at;
    if left < 7 {
        return digits_upto(text, at, left, whole);
    }
    digits_upto(text, at, 7, whole)
}

// The digits from `at`, as far as they go: most often few, and far from the text's end.
fn whole_part(text: &[u8], at: usize) -> Parsed<u64>
    requires { at ≤ length text.now }
    ensures { WholeRead text.now at result.next result.value }
{
    if 11 <= text.len() - at {
        let w = digits_upto(text, at, 11, 0);
        if w.next - at < 11 {
            return w;
        }
    }
    whole_run(text, at)
}

// The ten-millionths that one of the last of n decimals counts.
fn scale(n: usize) -> u64
    ensures { result ≡ 10 ^ (7 - n) }
{
    match n {
        0 => 10_000_000,
        1 => 1_000_000,
        2 => 100_000,
        3 => 10_000,
        4 => 1_000,
        5 => 100,
        6 => 10,
        _ => 1,
    }
}

// From the byte after the point on, `count` digits before it whose number is `whole`.
fn fraction(text: &[u8], at: usize, count: usize, whole: u64) -> Result<Parsed<u64>, Reason>
    requires { (at ≤ length text.now) × (count ≤ at) × (whole ≤ 20000000005) }
    ensures { said result ≡ ends_at (pointed count whole (word_of (drop at text.now))) (end_of text.now at) }
{
    let f = seven(text, at, whole);
    let last = f.next;
    let end = digits_end(text, last);
    if count + (end - at) == 0 || !word_ends(text, end) {
        return Err(Reason::Malformed);
    }
    Ok(Parsed {
        value: f.value * scale(last - at),
        next: end,
    })
}

// Digits with at most one point, in ten-millionths.
fn measure(text: &[u8], at: usize) -> Result<Parsed<u64>, Reason>
    requires { at ≤ length text.now }
    ensures { said result ≡ ends_at (magnitude_of (word_of (drop at text.now))) (end_of text.now at) }
{
    let w = whole_part(text, at);
    let end = w.next;
    if byte_at(text, end) == b'.' {
        return fraction(text, end + 1, end - at, w.value);
    }
    if end == at || !word_ends(text, end) {
        return Err(Reason::Malformed);
    }
    Ok(Parsed {
        value: w.value * 10_000_000,
        next: end,
    })
}

fn signed_of(minus: bool, m: u64) -> i32
    requires { m ≤ 2000000000 }
    ensures { result ≡ with_sign minus m }
{
    let n = m as i32;
    if minus { -n } else { n }
}

// Rounded to millionths, with the sign.
fn settle(minus: bool, size: Parsed<u64>) -> Result<Parsed<i32>, Reason>
    ensures { said result ≡ ends_at (settle_of minus size.value) size.next }
{
    if 20_000_000_004 < size.value {
        return Err(Reason::OutOfRange);
    }
    Ok(Parsed {
        value: signed_of(minus, (size.value + 5) / 10),
        next: size.next,
    })
}

// The number without its sign: most have no exponent.
fn size(text: &[u8], at: usize) -> Result<Parsed<u64>, Reason>
    requires { at ≤ length text.now }
    ensures { said result ≡ ends_at (size_of (word_of (drop at text.now))) (end_of text.now at) }
{
    match measure(text, at) {
        Ok(size) => Ok(size),
        Err(_) => scaled(text, at),
    }
}

// The word at `at` as a number, `size` being that of what follows its sign.
fn settled(text: &[u8], at: usize, b: u8, size: Parsed<u64>) -> Result<Parsed<i32>, Reason>
    requires at_in_bounds { (at ≤ length text.now) × (b ≡ first (drop at text.now)) }
    requires size_value { says (size.value, size.next) ≡ ends_at (size_of (word_of (drop (at + cond (is_sign b) 1 0) text.now))) (end_of text.now (at + cond (is_sign b) 1 0)) }
    ensures { said result ≡ ends_at (number_of (word_of (drop at text.now))) (end_of text.now at) }
{
    if 64 < size.next - at {
        return Err(Reason::Malformed);
    }
    settle(b == b'-', size)
}

// The number that the word at `at` is.
pub fn number_at(text: &[u8], at: usize) -> Result<Parsed<i32>, Reason>
    requires { at ≤ length text.now }
    ensures { said result ≡ ends_at (number_of (word_of (drop at text.now))) (end_of text.now at) }
{
    let b = byte_at(text, at);
    let size = size(text, at + sign_length(b))?;
    settled(text, at, b, size)
}

// Most numbers are far from the text's end and have at most four digits before the point and six after it: these are read straight ahead, in whole
// millionths, and every other as `number_at` does.
#[derive(Clone, Copy)]
pub enum Exact {
    Of { millionths: u64, end: usize },
    Scaled { millionths: u64, end: usize }, // e or E follows
    Other,
}

// The number of n decimals in millionths. Most have six; a table of powers would hold a register of the loop over a line's numbers.
fn in_millionths(value: u64, n: usize) -> u64
    requires { value * 10 ^ (6 - n) < 2 ^ 60 }
    ensures { result ≡ value * 10 ^ (6 - n) }
{
    let mut m = value;
    for i in n..6 {
        m *= 10;
    }
    m
}

// The decimals f from `at` on, after `count` digits whose number is `whole`, where e or E stands behind them.
fn mantissa_ahead(text: &[u8], at: usize, count: usize, f: Parsed<u64>, whole: u64) -> Exact
    requires upto_read { UptoRead 6 text.now at whole f.next f.value }
    requires end_in_bounds { (f.next < length text.now) × (count ≤ at) × (whole ≤ 20000000005) }
    ensures { ExactIs (at + 6) (ends_at (pointed count whole (word_of (drop at text.now))) (end_of text.now at)) (DecimalsAhead text.now at count whole) result }
{
    let stop = f.next;
    if is_e(byte_in(text, stop)) {
        if count + (stop - at) == 0 {
            return Exact::Other;
        }
        return Exact::Scaled {
            millionths: in_millionths(f.value, stop - at),
            end: stop,
        };
    }
    Exact::Other
}

// The same as `fraction`.
fn decimals_ahead(text: &[u8], at: usize, count: usize, whole: u64) -> Exact
    requires { (at + 6 < length text.now) × (count ≤ at) × (whole ≤ 20000000005) }
    ensures { ExactIs (at + 6) (ends_at (pointed count whole (word_of (drop at text.now))) (end_of text.now at)) (DecimalsAhead text.now at count whole) result }
{
    let f = digits_upto(text, at, 6, whole);
    let end = f.next;
    let b = byte_in(text, end);
    if 32 < b {
        return mantissa_ahead(text, at, count, f, whole);
    }
    if count + (end - at) == 0 {
        return Exact::Other;
    }
    Exact::Of {
        millionths: in_millionths(f.value, end - at),
        end,
    }
}

// The same as `measure`.
fn measure_ahead(text: &[u8], at: usize) -> Exact
    requires { at + 11 < length text.now }
    ensures { ExactIs (at + 11) (ends_at (magnitude_of (word_of (drop at text.now))) (end_of text.now at)) (MantissaAhead text.now at) result }
{
    let w = digits_upto(text, at, 4, 0);
    let end = w.next;
    let b = byte_in(text, end);
    if b == b'.' {
        return decimals_ahead(text, end + 1, end - at, w.value);
    }
    if 32 < b {
        return Exact::Other;
    }
    if end == at {
        return Exact::Other;
    }
    Exact::Of {
        millionths: w.value * 1_000_000,
        end,
    }
}

// The same as `number_at`, quicker for most numbers.
pub fn quick_number_at(text: &[u8], at: usize) -> Result<Parsed<i32>, Reason>
    requires { at ≤ length text.now }
    ensures { said result ≡ ends_at (number_of (word_of (drop at text.now))) (end_of text.now at) }
{
    if 12 < text.len() - at {
        let b = byte_in(text, at);
        let start = at + sign_length(b);
        match measure_ahead(text, start) {
            Exact::Of { millionths, end } => {
                if millionths <= 2_000_000_000 {
                    return Ok(Parsed {
                        value: signed_of(b == b'-', millionths),
                        next: end,
                    });
                }
            }
            Exact::Scaled { millionths, end } => {
                let size = shifted(text, start, millionths, end)?;
                return settled(text, at, b, size);
            }
            Exact::Other => {}
        }
    }
    number_at(text, at)
}
