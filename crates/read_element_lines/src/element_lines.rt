// The lines of p, l and f, and what they share with those of curv, curv2 and surf.
ghost use Rattle.std.specs.Prelude.{◌≡◌, ◌≤◌};
ghost use Rattle.read_element_lines.specs.Counting.{one_element};
ghost use Rattle.read_vertex_lines.specs.Bounds.{InBounds};
ghost use Rattle.tables.specs.ElementTables.{element_tables};
ghost use Rattle.read_vertex_lines.specs.Stepping.{ElementStep};

use read_elements::take_element;
use read_state::State;
use read_vertex_lines::{LineFault, with_used};
use statements::Shape;
use statements::rows::element_rules;
use statements::rules::allowed;
use tables::{Used, widths};
use text::Parsed;

pub fn one_element(count: u32, used: Used) -> Used
    requires { (count ≤ 16777216) × (used.corners ≤ 50331648) × (used.elements ≤ 16777216) }
    ensures { result ≡ one_element count used }
{
    Used {
        corners: used.corners + widths::CORNER as u32 * count,
        elements: used.elements + 1,
        ..used
    }
}

// A line of p, l or f, from just after its keyword on.
pub fn element_line(
    shape: Shape,
    text: &[u8],
    at: usize,
    state: State,
    corners: &mut [u32],
    elements: &mut [u32],
) -> Result<Parsed<State>, LineFault>
    requires { InBounds text.now at state }
    ensures { ElementStep shape text.now at state (element_tables corners.old elements.old) (element_tables corners.new elements.new) result }
{
    let rules = element_rules(shape);
    if !allowed(rules.standing, state.open.kind, false) {
        return Err(LineFault::Unknown);
    }
    let Some(taken) = take_element(text, at, shape, state.used, state.names, corners, elements)
    else {
        return Err(LineFault::Unknown);
    };
    Ok(Parsed {
        value: with_used(one_element(taken.value, state.used), state),
        next: taken.next,
    })
}
