// Bytes, joined lines and words.
#![tactic(auto)]

ghost use Rattle.std.specs.Prelude.{◌≡◌, ◌+◌, ◌≤◌, ◌<◌, length, get_or, drop, false};
ghost use Rattle.text.specs.Bytes.{is_blank, is_word, lf};
ghost use Rattle.text.specs.Tokens.{starts_word};
ghost use Rattle.text.specs.Rest.{rest_at, end_of, EndMet, TurnIs, AfterBlanksIs, scan_of, break_of};

// What was read, and the place where reading goes on.
#[derive(Clone, Copy)]
pub struct Parsed<T> {
    pub value: T,
    pub next: usize,
}

// 01: "Words hold bytes 33 to 126"; a backslash is no word byte.
pub fn is_word(b: u8) -> bool
    ensures { result ≡ is_word b }
{
    33 <= b && b <= 126 && b != 92
}

// 01: "A # at the start of a word opens a comment".
fn starts_word(b: u8) -> bool
    ensures { result ≡ starts_word b }
{
    is_word(b) && b != 35
}

fn is_blank(b: u8) -> bool
    ensures { result ≡ is_blank b }
{
    b == 32 || b == 9
}

// Where the word bytes from `at` end.
pub fn word_end(text: &[u8], at: usize) -> usize
    requires { at ≤ length text.now }
    ensures { (result ≡ end_of text.now at) × (result ≤ length text.now) }
{
    for i in at..text.len() {
        if !is_word(text[i]) {
            return i;
        }
    }
    text.len()
}

fn lf_at(text: &[u8], at: usize) -> bool
    ensures { result ≡ lf (drop at text.now) }
{
    at < text.len() && text[at] == 10
}

// How many bytes the line's ending at `at` has: 1 or 2, and 0 where none stands.
fn line_end(text: &[u8], at: usize) -> usize
    ensures { result ≡ break_of (drop at text.now) }
{
    if text.len() <= at {
        return 0;
    }
    match text[at] {
        10 => 1,
        13 if lf_at(text, at + 1) => 2,
        _ => 0,
    }
}

// Where the line after a comment starts: past the next LF, whatever stands before it.
fn comment_end(text: &[u8], at: usize) -> usize
    requires { (at < length text.now) × (get_or text.now at 0 ≡ 35) }
    ensures { EndMet text.now at result }
{
    for i in at + 1..text.len() {
        if text[i] == 10 {
            return i + 1;
        }
    }
    text.len()
}

// What a byte between words does that is neither a blank nor the start of a word.
#[derive(Clone, Copy)]
enum Turn {
    On(usize),
    End(usize),
    Refused,
}

fn turn_at(text: &[u8], at: usize) -> Turn
    requires { (at < length text.now) × (is_blank (get_or text.now at 0) ≡ false) × (starts_word (get_or text.now at 0) ≡ false) }
    ensures { TurnIs text.now at result }
{
    if text[at] == 35 {
        return Turn::End(comment_end(text, at));
    }
    let n = line_end(text, at);
    if 0 < n {
        return Turn::End(at + n);
    }
    if text[at] == 92 {
        let m = line_end(text, at + 1);
        if 0 < m {
            return Turn::On(at + 1 + m);
        }
        return Turn::Refused;
    }
    Turn::Refused
}

// What a line goes on with: a word, its end with the place of the next line, a byte that is not allowed.
#[derive(Clone, Copy)]
pub enum AfterBlanks {
    Start(usize),
    End(usize),
    Bad(usize),
}

// What the line goes on with at or after `at`, which is between words.
pub fn skip_blanks(text: &[u8], at: usize) -> AfterBlanks
    requires { at ≤ length text.now }
    ensures { AfterBlanksIs text.now at result }
{
    let mut i = at;
    while i < text.len() {
        let b = text[i];
        if is_blank(b) {
            i += 1;
        } else {
            if starts_word(b) {
                return AfterBlanks::Start(i);
            }
            match turn_at(text, i) {
                Turn::On(j) => {
                    i = j;
                }
                Turn::End(q) => {
                    return AfterBlanks::End(q);
                }
                Turn::Refused => {
                    return AfterBlanks::Bad(i);
                }
            }
        }
    }
    AfterBlanks::End(i)
}

// The rest of the line from `at`, which is between words: how many words it has and where the next line starts, or the place of its first byte that is not allowed.
pub fn scan_line(text: &[u8], at: usize) -> Result<Parsed<usize>, usize>
    requires { at ≤ length text.now }
    ensures { result ≡ scan_of (rest_at text.now at) }
{
    let mut i = at;
    let mut count: usize = 0;
    loop {
        match skip_blanks(text, i) {
            AfterBlanks::Start(p) => {
                i = word_end(text, p);
                count += 1;
            }
            AfterBlanks::End(q) => {
                return Ok(Parsed {
                    value: count,
                    next: q,
                });
            }
            AfterBlanks::Bad(p) => {
                return Err(p);
            }
        }
    }
}
