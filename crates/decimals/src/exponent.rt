// Numbers that end in an exponent: the exponent moves the point, so that the ten-millionths are the digits before the place where it then stands.
ghost use Rattle.std.specs.Prelude.{◌≡◌, ◌++◌, true, cond, ◌+◌, ◌*◌, ◌/◌, ◌^◌, ◌≤◌, ◌<◌, length, drop};
ghost use Rattle.text.specs.Words.{word_of};
ghost use Rattle.text.specs.Rest.{end_of};
ghost use Rattle.digits.specs.Answers.{said, ends_at};
ghost use Rattle.digits.specs.Straight.{first, run, cap};
ghost use Rattle.decimals.specs.Number.{is_sign, is_e};
ghost use Rattle.decimals.specs.Straight.{exponent_of, scaled_of, places_of, taken_of, moved_of, MantissaRead, MantissaAhead};

use digits::whole::row_at;
use digits::{CAP, byte_at, digits_end, first_digits};
use refusals::Reason;
use text::Parsed;

// What stands after e or E.
#[derive(Clone, Copy)]
pub struct Exponent {
    pub minus: bool,
    pub power: u64,
}

pub fn sign_length(b: u8) -> usize
    ensures { result ≡ cond (is_sign b) 1 0 }
{
    match b {
        b'+' | b'-' => 1,
        _ => 0,
    }
}

// The exponent that the word at `at` is: an optional sign and one to three digits.
pub fn exponent_at(text: &[u8], at: usize) -> Result<Parsed<Exponent>, Reason>
    requires { at ≤ length text.now }
    ensures { said result ≡ ends_at (exponent_of (word_of (drop at text.now))) (end_of text.now at) }
{
    let b = byte_at(text, at);
    let power = row_at(text, at + sign_length(b), 3)?;
    Ok(Parsed {
        value: Exponent {
            minus: b == b'-',
            power: power.value,
        },
        next: power.next,
    })
}

pub fn is_e(b: u8) -> bool
    ensures { result ≡ is_e b }
{
    b == b'e' || b == b'E'
}

// Where the digits of a mantissa stand: up to the point, and from after it to the end.
#[derive(Clone, Copy)]
pub struct Mantissa {
    pub point: usize,
    pub from: usize,
    pub end: usize,
}

fn mantissa_at(text: &[u8], at: usize) -> Mantissa
    requires { at ≤ length text.now }
    ensures { MantissaRead text.now at result.point result.from result.end }
{
    let point = digits_end(text, at);
    if byte_at(text, point) == b'.' {
        return Mantissa {
            point,
            from: point + 1,
            end: digits_end(text, point + 1),
        };
    }
    Mantissa {
        point,
        from: point,
        end: point,
    }
}

fn power_of_ten(n: usize) -> u64
    requires { n ≤ 10 }
    ensures { result ≡ 10 ^ n }
{
    match n {
        0 => 1,
        1 => 10,
        2 => 100,
        3 => 1_000,
        4 => 10_000,
        5 => 100_000,
        6 => 1_000_000,
        7 => 10_000_000,
        8 => 100_000_000,
        9 => 1_000_000_000,
        _ => 10_000_000_000,
    }
}

// The number with so many zeros after it, no more than the cap.
pub fn padded(value: u64, zeros: usize) -> u64
    ensures { result ≡ cap (value * 10 ^ zeros) }
{
    if value == 0 {
        return 0;
    }
    if 10 < zeros {
        return CAP;
    }
    let scale = power_of_ten(zeros);
    if CAP / scale < value {
        return CAP;
    }
    value * scale
}

// The number without so many of its last digits, no more than the cap.
fn cut(value: u64, digits: usize) -> u64
    requires { value < 10 ^ 11 }
    ensures { result ≡ cap (value / 10 ^ digits) }
{
    if 10 < digits {
        return 0;
    }
    let left = value / power_of_ten(digits);
    if CAP < left {
        return CAP;
    }
    left
}

// Ten-millionths with the point moved by an exponent, no more than the cap.
fn moved(value: u64, exponent: Exponent) -> u64
    requires { value < 10 ^ 11 }
    ensures { result ≡ cap (moved_of exponent.minus value exponent.power) }
{
    let power = exponent.power as usize;
    if exponent.minus {
        cut(value, power)
    } else {
        padded(value, power)
    }
}

// From e or E at `end` on, after a mantissa of so many millionths from `at`.
pub fn shifted(text: &[u8], at: usize, millionths: u64, end: usize) -> Result<Parsed<u64>, Reason>
    requires { MantissaAhead text.now at millionths end }
    ensures { said result ≡ ends_at (scaled_of (word_of (drop at text.now))) (end_of text.now at) }
{
    let exponent = exponent_at(text, end + 1)?;
    let value = moved(millionths * 10, exponent.value);
    Ok(Parsed {
        value,
        next: exponent.next,
    })
}

// How many digits stand before the point once it has moved: by seven places, to ten-millionths, and by the exponent.
fn places(whole: usize, exponent: Exponent) -> usize
    requires { (whole ≤ 2 ^ 63) × (exponent.power < 1000) }
    ensures { result ≡ places_of exponent.minus whole exponent.power }
{
    let power = exponent.power as usize;
    if exponent.minus {
        (whole + 7).saturating_sub(power)
    } else {
        whole + 7 + power
    }
}

// The first `count` digits of a mantissa, zeros where they lack, no more than the cap.
fn taken(text: &[u8], at: usize, m: Mantissa, count: usize) -> u64
    requires { MantissaRead text.now at m.point m.from m.end }
    ensures { result ≡ cap (taken_of count (run (drop at text.now) ++ run (drop m.from text.now))) }
{
    let point = m.point;
    let from = m.from;
    let whole = point - at;
    if count <= whole {
        return first_digits(text, at, count, 0);
    }
    let value = first_digits(text, at, whole, 0);
    let rest = count - whole;
    let most = m.end - from;
    if rest <= most {
        return first_digits(text, from, rest, value);
    }
    padded(first_digits(text, from, most, value), rest - most)
}

// From e or E on, after the mantissa from `at`.
fn with_exponent(text: &[u8], at: usize, m: Mantissa) -> Result<Parsed<u64>, Reason>
    requires mantissa_read { MantissaRead text.now at m.point m.from m.end }
    requires text_value { is_e (first (drop m.end text.now)) ≡ true }
    ensures { said result ≡ ends_at (scaled_of (word_of (drop at text.now))) (end_of text.now at) }
{
    let point = m.point;
    let stop = m.end;
    if (point - at) + (stop - m.from) == 0 {
        return Err(Reason::Malformed);
    }
    let exponent = exponent_at(text, stop + 1)?;
    Ok(Parsed {
        value: taken(text, at, m, places(point - at, exponent.value)),
        next: exponent.next,
    })
}

// The number that ends in an exponent, in ten-millionths rounded down.
pub fn scaled(text: &[u8], at: usize) -> Result<Parsed<u64>, Reason>
    requires { at ≤ length text.now }
    ensures { said result ≡ ends_at (scaled_of (word_of (drop at text.now))) (end_of text.now at) }
{
    let m = mantissa_at(text, at);
    if is_e(byte_at(text, m.end)) {
        return with_exponent(text, at, m);
    }
    Err(Reason::Malformed)
}
