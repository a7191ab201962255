// A line's function by the family of its statement, lent the tables that it fills.
ghost use Rattle.tables.specs.Lent.{lent_mut, SameSlices};
ghost use Rattle.read_vertex_lines.specs.Bounds.{InBounds};
ghost use Rattle.read_dispatch.specs.Taking.{FamilyIs, SameLengths};

use crate::families::Family;
use read_body_lines::{end_line, loop_line, parm_line};
use read_element_lines::body_lines::body_line;
use read_element_lines::element_lines::element_line;
use read_element_lines::setting_lines::setting_line;
use read_state::State;
use read_vertex_lines::{LineFault, vertex_line};
use tables::TablesMut;
use text::Parsed;

// A line from just after its keyword on.
pub fn take_line(
    family: Family,
    text: &[u8],
    at: usize,
    state: State,
    t: &mut TablesMut,
) -> Result<Parsed<State>, LineFault>
    requires { InBounds text.now at state }
    ensures taken { FamilyIs family text.now at state (lent_mut t.old) (lent_mut t.new) result }
    ensures lengths { SameLengths (lent_mut t.old) (lent_mut t.new) }
    ensures same { SameSlices t.old t.new }
{
    match family {
        Family::Vertex(kind) => vertex_line(kind, text, at, state, t.v, t.vt, t.vn, t.vp),
        Family::Element(shape) => element_line(shape, text, at, state, t.corners, t.elements),
        Family::Body(free) => {
            let room = t.bodies.len();
            let vp = &mut *t.vp;
            body_line(
                free, text, at, state, vp, t.corners, t.elements, room, t.ranges,
            )
        }
        Family::Parameters => parm_line(text, at, state),
        Family::Loop { hole } => loop_line(hole, text, at, state, t.loops, t.spans),
        Family::End => end_line(text, at, state, t.bodies, t.ranges, t.parameters),
        Family::Set(setting) => setting_line(setting, text, at, state),
        Family::Other => Err(LineFault::Unknown),
    }
}
