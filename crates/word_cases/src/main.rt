// Pairs of words from standard input: the letter of a form, and a word with what it is in that form. What is read is written, and numbers are read back.
// n number, r reference to one of 4, R to one of 4,294,967,295, p l f corner as on such a line with 4 v, 3 vt and 2 vn, d degree, s smoothing, g name.
#![tactic(auto)]

ghost use Rattle.std.specs.Prelude.{◌≤◌, ◌<◌, length};

use refusals::Reason;
use statements::rules::Parts;
use std::io;
use std::io::Read;
use tables::Corner;
use text::{AfterBlanks, Parsed};

fn put_whole(rt: &impl Print, n: u32) -> io::Result<()> {
    let mut out = [0u8; 64];
    let size = word_format::whole_length(n);
    if 64 < size {
        return Ok(());
    }
    word_format::write_whole(&mut out, 0, n);
    rt.write_all(&out[..size])
}

fn put_corner(rt: &impl Print, v: u32, vt: u32, vn: u32) -> io::Result<()> {
    let mut out = [0u8; 64];
    let size = word_format::corner_length(v, vt, vn);
    if 64 < size {
        return Ok(());
    }
    word_format::write_corner(&mut out, 0, v, vt, vn);
    rt.write_all(&out[..size])
}

// Whether the word is that number.
fn put_back(rt: &impl Print, word: &[u8], value: i32) -> io::Result<()> {
    match word_numbers::number_at(word, 0) {
        Ok(read) => {
            if read.value == value {
                print!(rt; ", read back")?;
            }
            Ok(())
        }
        Err(reason) => {
            let n = reason.number();
            print!(rt; ", back {n}")
        }
    }
}

fn refused(rt: &impl Print, reason: Reason) -> io::Result<()> {
    let n = reason.number();
    print!(rt; "refused {n}")
}

fn put_read(rt: &impl Print, read: Result<Parsed<u32>, Reason>) -> io::Result<()> {
    match read {
        Ok(number) => put_whole(rt, number.value),
        Err(reason) => refused(rt, reason),
    }
}

fn put_number(rt: &impl Print, value: i32) -> io::Result<()> {
    let mut out = [0u8; 64];
    let size = word_format::number_length(value);
    if 64 < size {
        return Ok(());
    }
    word_format::write_number(&mut out, 0, value);
    rt.write_all(&out[..size])?;
    put_back(rt, &out[..size], value)
}

fn number(rt: &impl Print, text: &[u8], at: usize) -> io::Result<()>
    requires { at ≤ length text.now }
{
    match word_numbers::number_at(text, at) {
        Ok(number) => put_number(rt, number.value),
        Err(reason) => refused(rt, reason),
    }
}

fn reference(rt: &impl Print, text: &[u8], at: usize, count: u32) -> io::Result<()>
    requires { at ≤ length text.now }
{
    put_read(rt, references::reference::reference_at(text, at, count))
}

fn corner(rt: &impl Print, text: &[u8], at: usize, parts: Parts) -> io::Result<()>
    requires { at ≤ length text.now }
{
    let counts = Corner { v: 4, vt: 3, vn: 2 };
    match references::corner::corner_at(text, at, counts, parts) {
        Ok(read) => {
            let Corner { v, vt, vn } = read.value;
            put_whole(rt, v)?;
            print!(rt; " ")?;
            put_whole(rt, vt)?;
            print!(rt; " ")?;
            put_whole(rt, vn)?;
            print!(rt; ", ")?;
            put_corner(rt, v, vt, vn)
        }
        Err(reason) => refused(rt, reason),
    }
}

fn degree(rt: &impl Print, text: &[u8], at: usize) -> io::Result<()>
    requires { at ≤ length text.now }
{
    put_read(rt, digits::whole::degree_at(text, at))
}

fn smoothing(rt: &impl Print, text: &[u8], at: usize) -> io::Result<()>
    requires { at ≤ length text.now }
{
    put_read(rt, digits::whole::smoothing_at(text, at))
}

fn name(rt: &impl Print, text: &[u8], at: usize) -> io::Result<()>
    requires { at ≤ length text.now }
{
    match digits::name::name_at(text, at) {
        Ok(_) => print!(rt; "a name"),
        Err(reason) => refused(rt, reason),
    }
}

fn put_form(rt: &impl Print, form: u8, text: &[u8], at: usize) -> io::Result<()>
    requires { at ≤ length text.now }
{
    match form {
        b'n' => number(rt, text, at),
        b'r' => reference(rt, text, at, 4),
        b'R' => reference(rt, text, at, 4_294_967_295),
        b'p' => corner(
            rt,
            text,
            at,
            Parts {
                vt: false,
                vn: false,
            },
        ),
        b'l' => corner(
            rt,
            text,
            at,
            Parts {
                vt: true,
                vn: false,
            },
        ),
        b'f' => corner(rt, text, at, Parts { vt: true, vn: true }),
        b'd' => degree(rt, text, at),
        b's' => smoothing(rt, text, at),
        b'g' => name(rt, text, at),
        _ => print!(rt; "no form"),
    }
}

// A form's letter, which is kept for the word after it; or that word.
fn put_word(rt: &impl Print, form: u8, text: &[u8], start: usize, end: usize) -> io::Result<u8>
    requires { (start ≤ end) × (end ≤ length text.now) }
{
    rt.write_all(&text[start..end])?;
    if form == 0 {
        print!(rt; " ")?;
        if start < text.len() {
            return Ok(text[start]);
        }
        return Ok(0);
    }
    print!(rt; ": ")?;
    put_form(rt, form, text, start)?;
    println!(rt)?;
    Ok(0)
}

fn show(rt: &impl Print, text: &[u8]) -> io::Result<()> {
    let mut form: u8 = 0;
    let mut i: usize = 0;
    while i < text.len() {
        match text::skip_blanks(text, i) {
            AfterBlanks::Start(p) => {
                i = text::word_end(text, p);
                form = put_word(rt, form, text, p, i)?;
            }
            AfterBlanks::End(q) => {
                i = q;
            }
            AfterBlanks::Bad(_) => {
                return Ok(());
            }
        }
    }
    Ok(())
}

fn written(rt: &impl Print, value: i32) -> io::Result<()> {
    put_number(rt, value)?;
    println!(rt)
}

// Numbers that no word gives, and those about zero and about the range's ends.
fn written_numbers(rt: &impl Print) -> io::Result<()> {
    written(rt, -2_147_483_648)?;
    written(rt, 2_147_483_647)?;
    written(rt, -2_000_000_001)?;
    written(rt, 2_000_000_001)?;
    written(rt, -2_000_000_000)?;
    written(rt, 2_000_000_000)?;
    written(rt, -1)?;
    written(rt, 0)?;
    written(rt, 1)?;
    written(rt, -999_999)?;
    written(rt, 1_000_000)?;
    written(rt, -10_000_000)
}

fn main(rt: HostRuntime) -> io::Result<()> {
    let mut buffer = [0u8; 8192];
    let n = rt.stdin().read(&mut buffer)?;
    show(&rt, &buffer[..n])?;
    written_numbers(&rt)?;
    // a word that is not there
    number(&rt, b"", 0)?;
    reference(&rt, b"", 0, 4)?;
    corner(&rt, b"", 0, Parts { vt: true, vn: true })?;
    degree(&rt, b"", 0)?;
    smoothing(&rt, b"", 0)?;
    name(&rt, b"", 0)?;
    println!(rt)
}
