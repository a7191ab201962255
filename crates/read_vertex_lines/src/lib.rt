// A line whose keyword is known, taken from just after it on: what is in force after it, and its records in the lent tables. Here are the lines of v, vt, vn and
// vp.
#![tactic(auto)]

ghost use Rattle.std.specs.Prelude.{◌≡◌, ◌+◌, ◌≤◌, length};
ghost use Rattle.read_vertex_lines.specs.Bounds.{InBounds};
ghost use Rattle.tables.specs.VertexTables.{vertex_tables};
ghost use Rattle.read_vertex_lines.specs.declared.LineFault.TheVariants.{AtKeyword};
ghost use Rattle.read_vertex_lines.specs.Stepping.{count_in, with_count, with_used, VertexInto, VertexStep};

use read_state::State;
use refusals::Reason;
use statements::VertexKind;
use statements::rows::vertex_rules;
use statements::rules::allowed;
use tables::Used;
use text::Parsed;

// Why a line whose keyword is known is not taken: it is refused at its keyword, or its fault is still to be found.
#[derive(Clone, Copy)]
pub enum LineFault {
    AtKeyword(Reason),
    Unknown,
}

impl From<Reason> for LineFault {
    ghost from_gives = { λ r f. f ≡ AtKeyword r };

    fn from(reason: Reason) -> LineFault {
        LineFault::AtKeyword(reason)
    }
}

fn count_of(kind: VertexKind, used: Used) -> u32
    ensures { result ≡ count_in kind used }
{
    match kind {
        VertexKind::Geometric => used.v,
        VertexKind::Texture => used.vt,
        VertexKind::Normal => used.vn,
        VertexKind::Parametric => used.vp,
    }
}

fn counted(kind: VertexKind, count: u32, used: Used) -> Used
    ensures { result ≡ with_count kind count used }
{
    match kind {
        VertexKind::Geometric => Used { v: count, ..used },
        VertexKind::Texture => Used { vt: count, ..used },
        VertexKind::Normal => Used { vn: count, ..used },
        VertexKind::Parametric => Used { vp: count, ..used },
    }
}

pub fn with_used(used: Used, state: State) -> State
    ensures { result ≡ with_used used state }
{
    State { used, ..state }
}

// The vertex of a line into the table of its kind, of which `used` records are used.
fn vertex_into(
    kind: VertexKind,
    text: &[u8],
    at: usize,
    used: u32,
    v: &mut [i32],
    vt: &mut [i32],
    vn: &mut [i32],
    vp: &mut [i32],
) -> Option<usize>
    requires { at ≤ length text.now }
    ensures { VertexInto kind text.now at used (vertex_tables v.old vt.old vn.old vp.old) (vertex_tables v.new vt.new vn.new vp.new) result }
{
    match kind {
        VertexKind::Geometric => read_vertices::take_vertex(kind, text, at, used, v),
        VertexKind::Texture => read_vertices::take_vertex(kind, text, at, used, vt),
        VertexKind::Normal => read_vertices::take_vertex(kind, text, at, used, vn),
        VertexKind::Parametric => read_vertices::take_vertex(kind, text, at, used, vp),
    }
}

// A line of v, vt, vn or vp, from just after its keyword on. Most lines are such lines: of the state, which is large, only a count goes along with the text.
pub fn vertex_line(
    kind: VertexKind,
    text: &[u8],
    at: usize,
    state: State,
    v: &mut [i32],
    vt: &mut [i32],
    vn: &mut [i32],
    vp: &mut [i32],
) -> Result<Parsed<State>, LineFault>
    requires { InBounds text.now at state }
    ensures { VertexStep kind text.now at state (vertex_tables v.old vt.old vn.old vp.old) (vertex_tables v.new vt.new vn.new vp.new) result }
{
    let rules = vertex_rules(kind);
    if !allowed(rules.standing, state.open.kind, false) {
        return Err(LineFault::Unknown);
    }
    let count = count_of(kind, state.used);
    let Some(next) = vertex_into(kind, text, at, count, v, vt, vn, vp) else {
        return Err(LineFault::Unknown);
    };
    Ok(Parsed {
        value: with_used(counted(kind, count + 1, state.used), state),
        next,
    })
}
