// What is told of a refusal besides its number and place: how many there are so far, the open body and what it asks; and what a keyword's rules ask.
#![tactic(auto)]

pub mod lines_before; // what the lines before a place say
pub mod along; // the parameters along one direction of the open body

ghost use Rattle.std.specs.Prelude.{◌≤◌, length};
ghost use Rattle.read_advice.specs.Advice.{AdviceIs};
ghost use Rattle.read_advice.specs.Inner.{NothingTold};

use crate::along::{DirectionAdvice, along_direction, no_parameters, range_from};
use crate::lines_before::{Tally, said_before, start_tally};
use keyword_rules::words_of_range;
use tables::kinds;
use text::AfterBlanks;

// The keyword of the line that holds the place, and how many words follow it; what the lines before say; of the open body the type and degrees in force, its
// controls, and its parameters along u and v.
#[repr(C)]
#[derive(Clone, Copy)]
pub struct Advice {
    pub key: usize,
    pub words: usize,
    pub tally: Tally,
    pub basis: u32,
    pub degree_u: u32,
    pub degree_v: u32,
    pub controls: usize,
    pub u: DirectionAdvice,
    pub v: DirectionAdvice,
}

// A line's keyword, and how many words follow it.
#[derive(Clone, Copy)]
pub struct Keyed {
    pub key: usize,
    pub words: usize,
}

// The words that follow a keyword, as far as they are allowed.
fn words_after(text: &[u8], at: usize) -> usize
    requires { at ≤ length text.now }
{
    match text::scan_line(text, at) {
        Ok(words) => words.value,
        Err(_) => 0,
    }
}

// The first word of the line at `at`; the place where there is none, as at the end of the text.
fn keyword_of(text: &[u8], at: usize) -> Keyed
    requires { at ≤ length text.now }
{
    match text::skip_blanks(text, at) {
        AfterBlanks::Start(p) => Keyed {
            key: p,
            words: words_after(text, text::word_end(text, p)),
        },
        AfterBlanks::End(q) => Keyed { key: q, words: 0 },
        AfterBlanks::Bad(p) => Keyed { key: p, words: 0 },
    }
}

// How many controls the line of the open body gives, its keyword at `opened`.
fn controls_given(text: &[u8], kind: u32, opened: usize) -> usize {
    if kind == 0 || text.len() < opened {
        return 0;
    }
    let line = keyword_of(text, opened);
    line.words.saturating_sub(words_of_range(text, opened))
}

// What is told of a text that is too long: nothing.
fn no_advice() -> Advice
    ensures { NothingTold result }
{
    Advice {
        key: 0,
        words: 0,
        tally: start_tally(),
        basis: 0,
        degree_u: 0,
        degree_v: 0,
        controls: 0,
        u: no_parameters(0, 0),
        v: no_parameters(0, 0),
    }
}

// What is told of the place of a refusal, in a text that `read` or `tidy` refused there.
pub fn explain(text: &[u8], place: usize) -> Advice
    ensures { AdviceIs text.now place result }
{
    if 16_777_216 < text.len() {
        return no_advice();
    }
    let before = said_before(text, place);
    let said = before.said;
    let tally = said.tally;
    let form = said.form;
    let line = keyword_of(text, before.line);
    let range = range_from(text, tally.opened);
    let widest = tally.kind == kinds::CURVE2;
    Advice {
        key: line.key,
        words: line.words,
        tally,
        basis: form.basis,
        degree_u: form.degree_u,
        degree_v: form.degree_v,
        controls: controls_given(text, tally.kind, tally.opened),
        u: along_direction(
            text,
            said.u_at,
            form.basis,
            form.degree_u,
            widest,
            range.u_start,
            range.u_end,
        ),
        v: along_direction(
            text,
            said.v_at,
            form.basis,
            form.degree_v,
            widest,
            range.v_start,
            range.v_end,
        ),
    }
}
