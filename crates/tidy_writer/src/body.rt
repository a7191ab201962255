// An element without its names: cstype, deg, its own line, parm, its loops and end.
ghost use Rattle.std.specs.Prelude.{◌≡◌, ◌∷◌, [], ◌++◌, take, drop};
ghost use Rattle.text.specs.Written.{written_line, written_lines};
ghost use Rattle.keywords.specs.Keywords.{keyword_of};
ghost use Rattle.statements.specs.declared.Carried.TheVariants.{BodyType, Degree};
ghost use Rattle.tables.specs.Lent.{lent};
ghost use Rattle.tidy_form.specs.Printed.{degree_words};
ghost use Rattle.tidy_words.specs.Emitting.{Emitted};
ghost use Rattle.tidy_writer.specs.Rows.{basis_argument, type_words, form_lines, parameter_line, parameter_lines, body_loops, end_line, own_lines};

use crate::element::{body_index, element_line};
use crate::loops::loop_lines;
use crate::vertices::emit_numbers;
use keywords::Argument;
use statements::Carried;
use tables::{Body, Element, Tables, bases, kinds};
use tidy_words::{emit, emit_spaced};

fn basis_argument(basis: u32) -> Argument
    ensures { result ≡ basis_argument basis }
{
    match basis {
        bases::BEZIER => Argument::Bezier,
        bases::BSPLINE => Argument::Bspline,
        bases::CARDINAL => Argument::Cardinal,
        _ => Argument::Taylor,
    }
}

// The cstype line: a body's type, `rat` before it where it is rational.
fn type_line(body: Body, out: &mut [u8], at: usize) -> usize
    ensures { Emitted at (written_line (keyword_of BodyType ∷ type_words body)) out.old out.new result }
{
    let words = emit(Carried::BodyType, out, at);
    let basis = if body.rational == 1 {
        emit_spaced(Argument::Rational, out, words)
    } else {
        words
    };
    let end = emit_spaced(basis_argument(body.basis), out, basis);
    emit(b'\n', out, end)
}

// One number on a curve, whose v degree is 0, two on a surface.
fn degree_line(body: Body, out: &mut [u8], at: usize) -> usize
    ensures { Emitted at (written_line (keyword_of Degree ∷ degree_words body.degree_u body.degree_v)) out.old out.new result }
{
    let words = emit(Carried::Degree, out, at);
    let second = emit_spaced(body.degree_u, out, words);
    let end = if body.degree_v == 0 {
        second
    } else {
        emit_spaced(body.degree_v, out, second)
    };
    emit(b'\n', out, end)
}

fn parameter_line(
    direction: Argument,
    parameters: &[i32],
    first: usize,
    count: usize,
    out: &mut [u8],
    at: usize,
) -> usize
    ensures { Emitted at (written_line (parameter_line direction (take count (drop first parameters.now)))) out.old out.new result }
{
    let words = emit(Carried::Parameters, out, at);
    let numbers = emit_spaced(direction, out, words);
    let end = emit_numbers(parameters, first, count, out, numbers);
    emit(b'\n', out, end)
}

fn parameter_lines(kind: u32, body: Body, parameters: &[i32], out: &mut [u8], at: usize) -> usize
    ensures { Emitted at (written_lines (parameter_lines parameters.now kind body)) out.old out.new result }
{
    let first = body.first_parameter as usize;
    let count = body.count_u as usize;
    let second = parameter_line(Argument::DirectionU, parameters, first, count, out, at);
    if kind == kinds::SURFACE {
        let count_v = body.count_v as usize;
        return parameter_line(
            Argument::DirectionV,
            parameters,
            first + count,
            count_v,
            out,
            second,
        );
    }
    second
}

// What stands before an element's own line where it has a body.
fn form_lines(body: Body, out: &mut [u8], at: usize) -> usize
    ensures { Emitted at (written_lines (form_lines body)) out.old out.new result }
{
    let second = type_line(body, out, at);
    degree_line(body, out, second)
}

// What stands after it.
fn closing_lines(kind: u32, body: Body, t: &Tables, out: &mut [u8], at: usize) -> usize
    ensures { Emitted at (written_lines (parameter_lines t.now.parameters.now kind body ++ (body_loops t.now.loops.now t.now.spans.now body ++ end_line ∷ []))) out.old out.new result }
{
    let trims = parameter_lines(kind, body, t.parameters, out, at);
    let first = body.first_loop as usize;
    let end = loop_lines(t.loops, t.spans, first, body.loops, out, trims);
    let last = emit(Carried::End, out, end);
    emit(b'\n', out, last)
}

// An element's lines, its names apart.
pub fn own_lines(element: Element, t: &Tables, out: &mut [u8], at: usize) -> usize
    ensures { Emitted at (written_lines (own_lines (lent t.now) element)) out.old out.new result }
{
    let body = table_asking::body_in(t.bodies, t.ranges, body_index(element.body));
    if element.kind < kinds::CURVE {
        return element_line(element, body, t.corners, out, at);
    }
    let own = form_lines(body, out, at);
    let parm = element_line(element, body, t.corners, out, own);
    closing_lines(element.kind, body, t, out, parm)
}
