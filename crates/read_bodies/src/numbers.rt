// The numbers of a line, gone through without storing them: those of a parm are wanted at the body's end only.
ghost use Rattle.std.specs.Prelude.{◌≤◌, length};
ghost use Rattle.read_bodies.specs.Numbers.{NumberStepIs, CountedIs};

use read_vertices::{Numbers, numbers_into};
use text::{AfterBlanks, Parsed, skip_blanks};
use word_numbers::number_at;

// What a line goes on with: a number, or its end with the place of the next line.
#[derive(Clone, Copy)]
pub enum NextNumber {
    Number(Parsed<i32>),
    End(usize),
}

// What the line goes on with at `at`, which is between words. None for a word that is no number and for a byte that is not allowed.
pub fn next_number(text: &[u8], at: usize) -> Option<NextNumber>
    requires { at ≤ length text.now }
    ensures { NumberStepIs text.now at result }
{
    match skip_blanks(text, at) {
        AfterBlanks::Bad(_) => None,
        AfterBlanks::End(q) => Some(NextNumber::End(q)),
        AfterBlanks::Start(p) => Some(NextNumber::Number(number_at(text, p).ok()?)),
    }
}

// How many numbers follow to the line's end, or how many of them come before what is none.
fn count_each(text: &[u8], at: usize) -> Result<Parsed<usize>, usize>
    requires { at ≤ length text.now }
    ensures { CountedIs text.now at result }
{
    let mut i = at;
    let mut count: usize = 0;
    // No range counts the places: each word ends where it is read to.
    loop {
        match next_number(text, i) {
            None => return Err(count),
            Some(NextNumber::End(next)) => return Ok(Parsed { value: count, next }),
            Some(NextNumber::Number(number)) => {
                count += 1;
                i = number.next;
            }
        }
    }
}

// The same. A line of numbers alone is gone through by the reader of vertices, which is the quickest; what it stores is not wanted.
pub fn count_numbers(text: &[u8], at: usize) -> Result<Parsed<usize>, usize>
    requires { at ≤ length text.now }
    ensures { CountedIs text.now at result }
{
    let mut unused = [0i32; 16];
    let mut i = at;
    let mut count: usize = 0;
    // No range counts the places: each word ends where it is read to.
    loop {
        match numbers_into(text, i, 16, &mut unused, 0) {
            None => return count_each(text, at),
            Some(Numbers::Ended { count: more, next }) => {
                return Ok(Parsed {
                    value: count + more,
                    next,
                });
            }
            Some(Numbers::Full { end }) => {
                count += 16;
                i = end;
            }
        }
    }
}
