// All that the tables hold, as the tidy text.
ghost use Rattle.std.specs.Prelude.{◌≡◌, ◌≤◌, min, length};
ghost use Rattle.text.specs.Written.{written_lines};
ghost use Rattle.tables.specs.Lent.{lent};
ghost use Rattle.tidy_words.specs.Emitting.{emission, emitted_whole, Emitted};
ghost use Rattle.tidy_writer.specs.TidyFrom.{vertices_from, tidy_from};

use crate::elements::elements_lines;
use crate::vertices::{VertexRows, vertex_lines};
use statements::{Carried, VertexKind};
use tables::{Tables, Used, widths};
use tidy_form::Weights;

fn all_vertices(weights: Weights, used: Used, t: &Tables, out: &mut [u8], at: usize) -> usize
    requires { at ≤ 16777217 }
    ensures { Emitted at (written_lines (vertices_from weights used (lent t.now))) out.old out.new result }
{
    let geometric = VertexRows {
        statement: Carried::Vertex(VertexKind::Geometric),
        counted: false,
        weights,
        width: widths::V,
        values: t.v,
    };
    let texture = VertexRows {
        statement: Carried::Vertex(VertexKind::Texture),
        counted: false,
        weights: Weights::Always,
        width: widths::VT,
        values: t.vt,
    };
    let normal = VertexRows {
        statement: Carried::Vertex(VertexKind::Normal),
        counted: false,
        weights: Weights::Always,
        width: widths::VN,
        values: t.vn,
    };
    let parametric = VertexRows {
        statement: Carried::Vertex(VertexKind::Parametric),
        counted: true,
        weights,
        width: widths::VP,
        values: t.vp,
    };
    let second = vertex_lines(&geometric, used.v, out, at);
    let third = vertex_lines(&texture, used.vt, out, second);
    let fourth = vertex_lines(&normal, used.vn, out, third);
    vertex_lines(&parametric, used.vp, out, fourth)
}

// The tidy text of what the tables hold, from the front of `out` on, word by word where there is room; the names in it are those of `text`.
fn emit_tidy(text: &[u8], weights: Weights, used: Used, t: &Tables, out: &mut [u8]) -> usize
    ensures { Emitted 0 (tidy_from weights text.now used (lent t.now)) out.old out.new result }
{
    let first = all_vertices(weights, used, t, out, 0);
    elements_lines(text, used, t, out, first)
}

// The length of the tidy text, 16,777,217 for every one that is too long.
fn measure(text: &[u8], weights: Weights, used: Used, t: &Tables) -> usize
    ensures { result ≡ min (length (tidy_from weights text.now used (lent t.now))) 16777217 }
{
    let mut none = [0u8; 1];
    emit_tidy(text, weights, used, t, &mut none)
}

// The tidy text of what the tables hold, from the front of `out` on, and its length, 16,777,217 for every one that is too long. It is measured first: a buffer
// that it passes stays as it was.
pub fn write_tidy(text: &[u8], weights: Weights, used: Used, t: &Tables, out: &mut [u8]) -> usize
    ensures { emission result out.new ≡ emitted_whole 0 (tidy_from weights text.now used (lent t.now)) out.old }
{
    let length = measure(text, weights, used, t);
    if length <= tidy_words::room_in(out.len()) {
        return emit_tidy(text, weights, used, t, out);
    }
    length
}
