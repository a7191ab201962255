// The lines of curv, curv2 and surf. The record of their body is stored at its end.
ghost use Rattle.std.specs.Prelude.{◌≡◌, ◌≤◌};
ghost use Rattle.read_element_lines.specs.Counting.{one_body};
ghost use Rattle.read_vertex_lines.specs.Bounds.{InBounds};
ghost use Rattle.tables.specs.ElementTables.{element_tables};
ghost use Rattle.read_vertex_lines.specs.Stepping.{BodyStep};

use crate::element_lines::one_element;
use read_elements::body::take_body_line;
use read_state::{Open, State, kind_of};
use read_vertex_lines::LineFault;
use statements::Free;
use statements::rows::body_rules;
use statements::rules::allowed;
use tables::Used;
use text::Parsed;

fn one_body(free: Free, count: u32, state: State) -> State
    requires { (count ≤ 16777216) × (state.used.corners ≤ 50331648) × (state.used.elements ≤ 16777216) × (state.used.bodies ≤ 16777216) }
    ensures { result ≡ one_body free count state }
{
    State {
        used: Used {
            bodies: state.used.bodies + 1,
            ..one_element(count, state.used)
        },
        open: Open {
            kind: kind_of(free),
            controls: count,
            parts: 0,
            u_at: 0,
            v_at: 0,
        },
        ..state
    }
}

// A line of curv, curv2 or surf, from just after its keyword on; `bodies` is the length of the bodies' table.
pub fn body_line(
    free: Free,
    text: &[u8],
    at: usize,
    state: State,
    vp: &[i32],
    corners: &mut [u32],
    elements: &mut [u32],
    bodies: usize,
    ranges: &mut [i32],
) -> Result<Parsed<State>, LineFault>
    requires { InBounds text.now at state }
    ensures { BodyStep free text.now at state vp.now (element_tables corners.old elements.old) (element_tables corners.new elements.new) bodies ranges.old ranges.new result }
{
    let rules = body_rules(free);
    if !allowed(rules.standing, state.open.kind, false) {
        return Err(LineFault::Unknown);
    }
    let Some(taken) = take_body_line(
        text,
        at,
        free,
        state.used,
        state.names,
        state.form,
        vp,
        corners,
        elements,
        bodies,
        ranges,
    ) else {
        return Err(LineFault::Unknown);
    };
    Ok(Parsed {
        value: one_body(free, taken.value, state),
        next: taken.next,
    })
}
