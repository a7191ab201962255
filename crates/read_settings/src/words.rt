// The words of a settings line, found before they are read, so that how many there are is held against the statement's row once.
ghost use Rattle.std.specs.Prelude.{◌≡◌, ◌≤◌, ◌<◌, length};
ghost use Rattle.text.specs.Rest.{rest_at, word_at, end_of, push};
ghost use Rattle.read_settings.specs.Words.{SettingLineIs, CountedLineIs, names_read, names_counted};

use digits::name::name_at;
use statements::rules::{Count, counted};
use tables::NameRun;
use text::{AfterBlanks, Parsed, scan_line, skip_blanks, word_end};

// Where the first two words stand, how many there are, and where the next line starts; a word that is not there has a place that says nothing.
#[derive(Clone, Copy)]
pub struct Line {
    pub first: usize,
    pub second: usize,
    pub count: usize,
    pub next: usize,
}

// The run of the line's names, how many there are, and where the next line starts.
#[derive(Clone, Copy)]
pub struct NamesRead {
    pub run: NameRun,
    pub count: usize,
    pub next: usize,
}

// The line whose first word stands at `first` and ends at `at`.
fn words_after(text: &[u8], first: usize, at: usize) -> Option<Line>
    requires { (first < at) × (at ≤ length text.now) }
    ensures { SettingLineIs text.now (push (word_at text.now first) (rest_at text.now at)) result }
{
    match skip_blanks(text, at) {
        AfterBlanks::End(next) => Some(Line {
            first,
            second: first,
            count: 1,
            next,
        }),
        AfterBlanks::Start(p) => {
            let others = scan_line(text, word_end(text, p)).ok()?;
            Some(Line {
                first,
                second: p,
                count: others.value + 2,
                next: others.next,
            })
        }
        AfterBlanks::Bad(_) => None,
    }
}

// The words of the line from `at` on, which is between words. None for a byte that is not allowed.
pub fn line_words(text: &[u8], at: usize) -> Option<Line>
    requires { at ≤ length text.now }
    ensures { SettingLineIs text.now (rest_at text.now at) result }
{
    match skip_blanks(text, at) {
        AfterBlanks::Start(p) => words_after(text, p, word_end(text, p)),
        AfterBlanks::End(next) => Some(Line {
            first: at,
            second: at,
            count: 0,
            next,
        }),
        AfterBlanks::Bad(_) => None,
    }
}

// The same, where so many words are allowed.
pub fn counted_line(text: &[u8], at: usize, allowed: Count) -> Option<Line>
    requires { at ≤ length text.now }
    ensures { CountedLineIs allowed text.now (rest_at text.now at) result }
{
    let line = line_words(text, at)?;
    if !counted(allowed, line.count) {
        return None;
    }
    Some(line)
}

// The names from the one at `at` on, to the line's end.
fn names_from(text: &[u8], at: usize) -> Option<NamesRead>
    requires { (at < end_of text.now at) × (end_of text.now at ≤ length text.now) × (length text.now ≤ 16777216) }
    ensures { result ≡ names_read (push (word_at text.now at) (rest_at text.now (end_of text.now at))) }
{
    let mut place = at;
    let mut count: usize = 1;
    // No range counts the places: each word ends where it is read to.
    loop {
        let end = name_at(text, place).ok()?;
        match skip_blanks(text, end) {
            AfterBlanks::Start(p) => {
                place = p;
                count += 1;
            }
            AfterBlanks::End(next) => {
                return Some(NamesRead {
                    run: NameRun {
                        place: at as u32,
                        length: (end - at) as u32,
                    },
                    count,
                    next,
                });
            }
            AfterBlanks::Bad(_) => return None,
        }
    }
}

// The names of the line from `at` on; 01: "Place and length are 0 .. after a bare `g`".
pub fn line_names(text: &[u8], at: usize) -> Option<NamesRead>
    requires { (at ≤ length text.now) × (length text.now ≤ 16777216) }
    ensures { result ≡ names_read (rest_at text.now at) }
{
    match skip_blanks(text, at) {
        AfterBlanks::Start(p) => names_from(text, p),
        AfterBlanks::End(next) => Some(NamesRead {
            run: NameRun {
                place: 0,
                length: 0,
            },
            count: 0,
            next,
        }),
        AfterBlanks::Bad(_) => None,
    }
}

// Their run, where so many names are allowed.
pub fn counted_names(text: &[u8], at: usize, allowed: Count) -> Option<Parsed<NameRun>>
    requires { (at ≤ length text.now) × (length text.now ≤ 16777216) }
    ensures { result ≡ names_counted allowed (names_read (rest_at text.now at)) }
{
    let names = line_names(text, at)?;
    if !counted(allowed, names.count) {
        return None;
    }
    Some(Parsed {
        value: names.run,
        next: names.next,
    })
}
