// The lines of elements, one after the other.
ghost use Rattle.std.specs.Prelude.{◌+◌, ◌≤◌};
ghost use Rattle.text.specs.Written.{written_lines};
ghost use Rattle.tables.specs.Lent.{lent};
ghost use Rattle.tidy_form.specs.Agree.{words_at};
ghost use Rattle.tidy_words.specs.Emitting.{Emitted};
ghost use Rattle.tidy_writer.specs.TidyFrom.{changed, smoothed, names_lines, element_lines, elements_from};

use crate::body::own_lines;
use statements::Carried;
use table_asking::element_of;
use tables::{Element, NameRun, Tables, Used};
use tidy_words::{emit, emit_spaced, names};

// The names of a run, where they are not those of the run before.
fn name_line(
    statement: Carried,
    text: &[u8],
    before: NameRun,
    run: NameRun,
    out: &mut [u8],
    at: usize,
) -> usize
    requires { at ≤ 16777217 }
    ensures { Emitted at (written_lines (changed statement (words_at text.now before) (words_at text.now run))) out.old out.new result }
{
    if names::same_names(text, before, run) {
        return at;
    }
    let words = emit(statement, out, at);
    let end = names::emit_names(text, run, out, words);
    emit(b'\n', out, end)
}

fn smoothing_line(before: u32, smoothing: u32, out: &mut [u8], at: usize) -> usize
    requires { at ≤ 16777217 }
    ensures { Emitted at (written_lines (smoothed before smoothing)) out.old out.new result }
{
    if before == smoothing {
        return at;
    }
    let words = emit(Carried::Smoothing, out, at);
    let end = emit_spaced(smoothing, out, words);
    emit(b'\n', out, end)
}

fn names_lines(text: &[u8], before: Element, element: Element, out: &mut [u8], at: usize) -> usize
    requires { at ≤ 16777217 }
    ensures { Emitted at (written_lines (names_lines text.now before element)) out.old out.new result }
{
    let smoothing = name_line(Carried::Group, text, before.group, element.group, out, at);
    let material = smoothing_line(before.smoothing, element.smoothing, out, smoothing);
    name_line(
        Carried::Material,
        text,
        before.material,
        element.material,
        out,
        material,
    )
}

// The element after the one of that number.
fn element_lines(
    text: &[u8],
    used: Used,
    t: &Tables,
    number: u32,
    out: &mut [u8],
    at: usize,
) -> usize
    requires { (at ≤ 16777217) × (number + 1 ≤ 4294967295) }
    ensures { Emitted at (written_lines (element_lines text.now used (lent t.now) number)) out.old out.new result }
{
    let before = element_of(used, t.elements, number);
    let element = element_of(used, t.elements, number + 1);
    let own = names_lines(text, before, element, out, at);
    own_lines(element, t, out, own)
}

pub fn elements_lines(text: &[u8], used: Used, t: &Tables, out: &mut [u8], at: usize) -> usize
    requires { at ≤ 16777217 }
    ensures { Emitted at (written_lines (elements_from text.now used (lent t.now) used.elements 0)) out.old out.new result }
{
    let mut end = at;
    for number in 0..used.elements {
        end = element_lines(text, used, t, number, out, end);
    }
    end
}
