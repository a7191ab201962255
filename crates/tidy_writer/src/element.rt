// An element's own line: its keyword, its range and its corners.
ghost use Rattle.std.specs.Prelude.{◌≡◌, map, ◌≤◌, drop};
ghost use Rattle.text.specs.Written.{written_line};
ghost use Rattle.references.specs.Written.{written_corner};
ghost use Rattle.tidy_words.specs.Emitting.{Emitted};
ghost use Rattle.tidy_words.specs.Emitting.{spaced};
ghost use Rattle.tidy_writer.specs.Rows.{kind_keyword, range_count, body_index, stored_corners, element_words};

use crate::vertices::emit_numbers;
use statements::{Carried, Free, Shape};
use tables::{Body, CornerRun, Element, kinds};
use tidy_words::{emit, emit_spaced};

fn kind_keyword(kind: u32) -> Carried
    ensures { result ≡ kind_keyword kind }
{
    match kind {
        kinds::POINT => Carried::Element(Shape::Point),
        kinds::LINE => Carried::Element(Shape::Line),
        kinds::FACE => Carried::Element(Shape::Face),
        kinds::CURVE => Carried::Body(Free::Curve),
        kinds::CURVE2 => Carried::Body(Free::Curve2),
        _ => Carried::Body(Free::Surface),
    }
}

fn range_count(kind: u32) -> usize
    ensures { result ≡ range_count kind }
{
    match kind {
        kinds::CURVE => 2,
        kinds::SURFACE => 4,
        _ => 0,
    }
}

pub fn body_index(number: u32) -> u32
    ensures { result ≡ body_index number }
{
    number.saturating_sub(1)
}

// Each corner of a run, with a space before it.
fn emit_corners(corners: &[u32], run: CornerRun, out: &mut [u8], at: usize) -> usize
    requires { at ≤ 16777217 }
    ensures { Emitted at (spaced (map written_corner (stored_corners run.count (drop run.first corners.now)))) out.old out.new result }
{
    let mut end = at;
    for k in 0..run.count as usize {
        end = emit_spaced(tables::corner_at(corners, run, k), out, end);
    }
    end
}

pub fn element_line(
    element: Element,
    body: Body,
    corners: &[u32],
    out: &mut [u8],
    at: usize,
) -> usize
    ensures { Emitted at (written_line (element_words corners.now body element)) out.old out.new result }
{
    let words = emit(kind_keyword(element.kind), out, at);
    let range = tables::range_row(body);
    let first = emit_numbers(&range, 0, range_count(element.kind), out, words);
    let end = emit_corners(corners, element.corners, out, first);
    emit(b'\n', out, end)
}
