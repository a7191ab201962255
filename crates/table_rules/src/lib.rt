// Refusal 15 of whole tables (Q-6): every record held against the rules, and every run against the one before it.
#![tactic(auto)]

ghost use Rattle.std.specs.Prelude.{◌≡◌, ◌*◌, ◌≤◌, leb};
ghost use Rattle.tables.specs.Lent.{lent};
ghost use Rattle.table_rules.specs.Whole.{lent_all, whole_obeys};

use crate::elements::elements_obey;
use crate::vertices::vertices_obey;
use tables::{Tables, Used, widths};

mod elements;
pub mod ends;
mod vertices;

// Whether `count` records of `width` numbers stand within a lent length.
fn is_lent(width: usize, count: u32, lent: usize) -> bool
    requires { width ≤ 4294967295 }
    ensures { result ≡ leb (width * count) lent }
{
    width * (count as usize) <= lent
}

fn lent_all(used: Used, t: &Tables) -> bool
    ensures { result ≡ lent_all used (lent t.now) }
{
    is_lent(widths::V, used.v, t.v.len())
        & is_lent(widths::VT, used.vt, t.vt.len())
        & is_lent(widths::VN, used.vn, t.vn.len())
        & is_lent(widths::VP, used.vp, t.vp.len())
        & (used.corners as usize <= t.corners.len())
        & is_lent(widths::ELEMENT, used.elements, t.elements.len())
        & is_lent(widths::BODY, used.bodies, t.bodies.len())
        & is_lent(widths::RANGE, used.bodies, t.ranges.len())
        & (used.parameters as usize <= t.parameters.len())
        & is_lent(widths::LOOP, used.loops, t.loops.len())
        & is_lent(widths::SPAN, used.loops, t.spans.len())
}

// Whether nothing that 15 names is wrong with the tables.
#[tactic(auto, unfolding(crate::specs::Whole::whole_obeys))]
pub fn whole_obeys(used: Used, t: &Tables) -> bool
    ensures { result ≡ whole_obeys used (lent t.now) }
{
    lent_all(used, t) && vertices_obey(used, t) && elements_obey(used, t)
}
