// The lines of small texts, each with its words and their places, up to the first byte that is not allowed.
#![tactic(auto)]

ghost use Rattle.std.specs.Prelude.{◌≤◌, ◌<◌, IfOk, length};

use std::io;
use text::AfterBlanks;

// What `scan_line` answers for the line at `at`.
fn summary(rt: &impl Print, text: &[u8], at: usize) -> io::Result<()>
    requires { at ≤ length text.now }
{
    match text::scan_line(text, at) {
        Ok(line) => {
            let count = line.value;
            let next = line.next;
            print!(rt; "line at {at}: next {next}, words {count}")
        }
        Err(place) => print!(rt; "line at {at}: refused at {place}"),
    }
}

fn put_word(rt: &impl Print, text: &[u8], start: usize, end: usize) -> io::Result<()>
    requires { (start ≤ end) × (end ≤ length text.now) }
{
    print!(rt; ", {start} ")?;
    rt.write_all(&text[start..end])
}

// The words of the line at `at`; then where the next line starts, or the text's end where the line is refused.
fn words(rt: &impl Print, text: &[u8], at: usize) -> io::Result<usize>
    requires { at < length text.now }
    ensures { IfOk result (λ next. (at < next) × (next ≤ length text.now)) }
{
    let mut i = at;
    loop {
        match text::skip_blanks(text, i) {
            AfterBlanks::Start(p) => {
                i = text::word_end(text, p);
                put_word(rt, text, p, i)?;
            }
            AfterBlanks::End(q) => {
                return Ok(q);
            }
            AfterBlanks::Bad(_) => {
                return Ok(text.len());
            }
        }
    }
}

fn show(rt: &impl Print, text: &[u8]) -> io::Result<()> {
    let mut at: usize = 0;
    while at < text.len() {
        summary(rt, text, at)?;
        at = words(rt, text, at)?;
        println!(rt)?;
    }
    println!(rt; "end of text")
}

fn joins(rt: &impl Print) -> io::Result<()> {
    // v, a join, 1, and a comment, in which a backslash joins nothing; x is the next line
    show(rt, b"v \\\n1 #\\\r\nx")?;
    // a join parts two words, and may end with CR LF; a # within a word is a byte of it
    show(rt, b"a\\\r\nb#c\r\n")?;
    // joins one after the other, and blanks before the first word
    show(rt, b"\t a\\\n\\\nb")?;
    // a join before the end of the text, and one that leads to an empty line
    show(rt, b"a\\\n")?;
    show(rt, b"a\\\n\nb")?;
    // a # right after a join opens a comment, and its LF ends the line
    show(rt, b"a \\\n#c\\\nb")
}

fn comments_and_returns(rt: &impl Print) -> io::Result<()> {
    // CR LF is the ending also after a comment; a comment may hold CR, NUL, 127 and 200
    show(rt, b"#c\r\n#\r\r\0\x7f\xc8\r\n")?;
    // a CR that no LF follows: in mid-line, at the end of the text, before CR LF
    show(rt, b"a\rb")?;
    show(rt, b"a\r")?;
    show(rt, b"\r\r\nb")
}

fn backslashes(rt: &impl Print) -> io::Result<()> {
    // a backslash before a CR that no LF follows, at the end of the text, before a blank and LF, in mid-line
    show(rt, b"a \\\rb")?;
    show(rt, b"a\\")?;
    show(rt, b"\\ \nb")?;
    show(rt, b"a\\b c")
}

fn bytes_not_allowed(rt: &impl Print) -> io::Result<()> {
    // NUL, 11, 12, 127, 128 and 255 outside comments
    show(rt, b"\0")?;
    show(rt, b"a\x0b\nb")?;
    show(rt, b"b \x0c")?;
    show(rt, b"\n\x7f")?;
    show(rt, b"c\x80")?;
    show(rt, b"\xff")?;
    // a byte that is not allowed in a later physical line of the same joined line; only the first counts
    show(rt, b"x \\\n\x7f\x7f \\\ny")?;
    // such a byte continues its word: a # right after it opens no comment, so the join holds; after a blank it does open one
    show(rt, b"a\x7f#\\\nb")?;
    show(rt, b"a\x7f #\\\nb")
}

fn small_texts(rt: &impl Print) -> io::Result<()> {
    // nothing; an empty line; blanks and a comment alone; ! and ~ are word bytes
    show(rt, b"")?;
    show(rt, b"\n")?;
    show(rt, b" \n\t#x")?;
    show(rt, b"!~")
}

fn main(rt: HostRuntime) -> io::Result<()> {
    joins(&rt)?;
    comments_and_returns(&rt)?;
    backslashes(&rt)?;
    bytes_not_allowed(&rt)?;
    small_texts(&rt)
}
