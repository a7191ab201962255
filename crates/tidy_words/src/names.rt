// The names of elements, as they stand in the text: compared as words, and written.
ghost use Rattle.std.specs.Prelude.{◌≡◌, List, ◌∷◌, ℕ, ◌≤◌, length, drop};
ghost use Rattle.lists.specs.Lists.{flat};
ghost use Rattle.text.specs.Words.{word_of};
ghost use Rattle.text.specs.Rest.{end_of};
ghost use Rattle.tidy_form.specs.Agree.{words_at};
ghost use Rattle.tidy_words.specs.Naming.{same_bytes, part_names, NextIs};
ghost use Rattle.tidy_words.specs.Emitting.{emission, emitted_whole, Emitted};

use crate::{emit, place_after, room_in};
use table_asking::part_of;
use tables::NameRun;
use text::AfterBlanks;

// Where the next word starts at or after `at`, which is between words, if one does before the line's end and a byte that is not allowed.
fn next_word(text: &[u8], at: usize) -> Option<usize>
    requires { at ≤ length text.now }
    ensures { NextIs text.now at result }
{
    match text::skip_blanks(text, at) {
        AfterBlanks::Start(p) => Some(p),
        AfterBlanks::End(_) => None,
        AfterBlanks::Bad(_) => None,
    }
}

// Whether two parts hold the same words.
fn same_words(one: &[u8], other: &[u8]) -> bool
    ensures { result ≡ same_bytes (part_names one.now) (part_names other.now) }
{
    let mut i = 0;
    let mut j = 0;
    loop {
        let Some(p) = next_word(one, i) else {
            return next_word(other, j).is_none();
        };
        let Some(q) = next_word(other, j) else {
            return false;
        };
        let Some(end) = spellings::same_word(one, p, other, q) else {
            return false;
        };
        i = end;
        j = text::word_end(other, q);
    }
}

// 01: "where the names (as words) .. differ": whether two parts of the text hold the same words.
pub fn same_names(text: &[u8], run: NameRun, other: NameRun) -> bool
    ensures { result ≡ same_bytes (words_at text.now run) (words_at text.now other) }
{
    // most elements have the names of the one before, set by the same line
    if run.place == other.place && run.length == other.length {
        return true;
    }
    same_words(part_of(text, run), part_of(text, other))
}

// The word of the text from `from` to `to`.
fn emit_word(text: &[u8], from: usize, to: usize, out: &mut [u8], at: usize) -> usize
    requires { to ≡ end_of text.now from }
    ensures { emission result out.new ≡ emitted_whole at (word_of (drop from text.now)) out.old }
{
    let end = place_after(at, to - from);
    if end <= room_in(out.len()) {
        spellings::copy_word(text, from, out, at)
    } else {
        end
    }
}

// Each word of a part, with a space before it.
fn emit_words(part: &[u8], out: &mut [u8], at: usize) -> usize
    ensures { Emitted at (flat (λ (w : List ℕ). 32 ∷ w) (part_names part.now)) out.old out.new result }
{
    let mut i = 0;
    let mut to = place_after(at, 0);
    while let Some(p) = next_word(part, i) {
        let first = emit(b' ', out, to);
        i = text::word_end(part, p);
        to = emit_word(part, p, i, out, first);
    }
    to
}

// The names that a part of the text holds, each with a space before it.
pub fn emit_names(text: &[u8], run: NameRun, out: &mut [u8], at: usize) -> usize
    ensures { Emitted at (flat (λ (w : List ℕ). 32 ∷ w) (words_at text.now run)) out.old out.new result }
{
    let names = part_of(text, run);
    emit_words(names, out, at)
}
