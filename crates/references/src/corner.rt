ghost use Rattle.std.specs.Prelude.{◌≡◌, true, ◌&&◌, ◌+◌, ◌≤◌, ◌<◌, length, drop, leb};
ghost use Rattle.text.specs.Words.{word_of};
ghost use Rattle.text.specs.Rest.{end_of};
ghost use Rattle.digits.specs.Said.{says, must};
ghost use Rattle.digits.specs.Answers.{said, ends_at};
ghost use Rattle.references.specs.Corner.{split, corner_of};
ghost use Rattle.references.specs.Answers.{AheadIs};
ghost use Rattle.references.specs.Straight.{second, third, SecondIs};

use crate::reference::part_at;
use digits::{byte_at, byte_in, digits_upto, word_ends};
use refusals::Reason;
use statements::rules::Parts;
use tables::Corner;
use text::Parsed;

// The corner, where all that it refers to is there.
fn made(there: bool, corner: Corner, next: usize) -> Result<Parsed<Corner>, Reason>
    ensures { said result ≡ ends_at (must there 8 (says corner)) next }
{
    if !there {
        return Err(Reason::NoReferent);
    }
    Ok(Parsed {
        value: corner,
        next,
    })
}

fn both(v: u32, vt: u32) -> bool
    ensures { result ≡ (leb 1 v && leb 1 vt) }
{
    v != 0 && vt != 0
}

// The normal, the third part, and the end of the word.
fn normal_at(
    text: &[u8],
    at: usize,
    there: bool,
    v: u32,
    vt: u32,
    nvn: u32,
    normal: bool,
) -> Result<Parsed<Corner>, Reason>
    requires { at ≤ length text.now }
    ensures { said result ≡ ends_at (third normal nvn there v vt (split (word_of (drop at text.now)))) (end_of text.now at) }
{
    if !normal {
        return Err(Reason::Malformed);
    }
    let vn = part_at(text, at, nvn)?;
    if !word_ends(text, vn.next) {
        return Err(Reason::Malformed);
    }
    if vn.value == 0 {
        return Err(Reason::NoReferent);
    }
    made(
        there,
        Corner {
            v,
            vt,
            vn: vn.value,
        },
        vn.next,
    )
}

// From the second part on.
fn texture_at(
    text: &[u8],
    at: usize,
    v: u32,
    counts: Corner,
    parts: Parts,
) -> Result<Parsed<Corner>, Reason>
    requires { at ≤ length text.now }
    ensures { said result ≡ ends_at (second counts.vt counts.vn parts.vt parts.vn v (split (word_of (drop at text.now)))) (end_of text.now at) }
{
    if byte_at(text, at) == b'/' {
        return normal_at(text, at + 1, v != 0, v, 0, counts.vn, parts.vn);
    }
    if !parts.vt {
        return Err(Reason::Malformed);
    }
    let vt = part_at(text, at, counts.vt)?;
    let there = both(v, vt.value);
    let b = byte_at(text, vt.next);
    if b == b'/' {
        return normal_at(text, vt.next + 1, there, v, vt.value, counts.vn, parts.vn);
    }
    if text::is_word(b) {
        return Err(Reason::Malformed);
    }
    made(
        there,
        Corner {
            v,
            vt: vt.value,
            vn: 0,
        },
        vt.next,
    )
}

// The corner that the word at `at` is, of the parts that its statement allows; `counts` says how many there are of each.
pub fn corner_at(
    text: &[u8],
    at: usize,
    counts: Corner,
    parts: Parts,
) -> Result<Parsed<Corner>, Reason>
    requires { at ≤ length text.now }
    ensures { said result ≡ ends_at (corner_of (record { v = counts.v; vt = counts.vt; vn = counts.vn }) parts (word_of (drop at text.now))) (end_of text.now at) }
{
    let v = part_at(text, at, counts.v)?;
    let b = byte_at(text, v.next);
    if b == b'/' {
        return texture_at(text, v.next + 1, v.value, counts, parts);
    }
    if text::is_word(b) {
        return Err(Reason::Malformed);
    }
    made(
        v.value != 0,
        Corner {
            v: v.value,
            vt: 0,
            vn: 0,
        },
        v.next,
    )
}

fn refers(number: u64, count: u32) -> bool
    ensures value { result ≡ (leb 1 number && leb number count) }
    ensures fits { result ≡ true → number ≤ 4294967295 }
{
    number != 0 && number <= u64::from(count)
}

// Most corners are far from the text's end and count from the first: these are read straight ahead, and every other part by part.
fn normal_ahead(
    text: &[u8],
    at: usize,
    v: u32,
    vt: u32,
    nvn: u32,
    normal: bool,
) -> Option<Parsed<Corner>>
    requires { at + 10 < length text.now }
    ensures { AheadIs (ends_at (third normal nvn true v vt (split (word_of (drop at text.now)))) (end_of text.now at)) result }
{
    if !normal {
        return None;
    }
    let w = digits_upto(text, at, 10, 0);
    if !refers(w.value, nvn) {
        return None;
    }
    let end = w.next;
    if 32 < byte_in(text, end) {
        return None;
    }
    Some(Parsed {
        value: Corner {
            v,
            vt,
            vn: w.value as u32,
        },
        next: end,
    })
}

// A second part, 0 where there is none.
fn second_ahead(text: &[u8], at: usize, nvt: u32) -> Option<Parsed<u32>>
    requires { at + 10 < length text.now }
    ensures { SecondIs nvt text.now at result }
{
    if byte_in(text, at) == b'/' {
        return Some(Parsed { value: 0, next: at });
    }
    let w = digits_upto(text, at, 10, 0);
    if !refers(w.value, nvt) {
        return None;
    }
    Some(Parsed {
        value: w.value as u32,
        next: w.next,
    })
}

fn texture_ahead(
    text: &[u8],
    at: usize,
    v: u32,
    counts: Corner,
    parts: Parts,
) -> Option<Parsed<Corner>>
    requires { (at + 21 < length text.now) × (1 ≤ v) }
    ensures { AheadIs (ends_at (second counts.vt counts.vn parts.vt parts.vn v (split (word_of (drop at text.now)))) (end_of text.now at)) result }
{
    if !parts.vt {
        return None;
    }
    let vt = second_ahead(text, at, counts.vt)?;
    let b = byte_in(text, vt.next);
    if b == b'/' {
        return normal_ahead(text, vt.next + 1, v, vt.value, counts.vn, parts.vn);
    }
    if 32 < b {
        return None;
    }
    Some(Parsed {
        value: Corner {
            v,
            vt: vt.value,
            vn: 0,
        },
        next: vt.next,
    })
}

fn corner_ahead(text: &[u8], at: usize, counts: Corner, parts: Parts) -> Option<Parsed<Corner>>
    requires { at + 32 < length text.now }
    ensures { AheadIs (ends_at (corner_of (record { v = counts.v; vt = counts.vt; vn = counts.vn }) parts (word_of (drop at text.now))) (end_of text.now at)) result }
{
    let w = digits_upto(text, at, 10, 0);
    if !refers(w.value, counts.v) {
        return None;
    }
    let v = w.value as u32;
    let end = w.next;
    let b = byte_in(text, end);
    if b == b'/' {
        return texture_ahead(text, end + 1, v, counts, parts);
    }
    if 32 < b {
        return None;
    }
    Some(Parsed {
        value: Corner { v, vt: 0, vn: 0 },
        next: end,
    })
}

// The same as `corner_at`, quicker for most corners.
pub fn quick_corner_at(
    text: &[u8],
    at: usize,
    counts: Corner,
    parts: Parts,
) -> Result<Parsed<Corner>, Reason>
    requires { at ≤ length text.now }
    ensures { said result ≡ ends_at (corner_of (record { v = counts.v; vt = counts.vt; vn = counts.vn }) parts (word_of (drop at text.now))) (end_of text.now at) }
{
    if 32 < text.len() - at {
        if let Some(corner) = corner_ahead(text, at, counts, parts) {
            return Ok(corner);
        }
    }
    corner_at(text, at, counts, parts)
}
