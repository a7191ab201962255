ghost use Rattle.std.specs.Prelude.{◌≡◌, suc, ◌≤◌};
ghost use Rattle.tables.specs.Lent.{lent};
ghost use Rattle.record_rules.specs.Numbers.{all_below};
ghost use Rattle.record_rules.specs.Vertices.{vertex_obeys, parameter_vertex_obeys};
ghost use Rattle.table_rules.specs.Whole.{vertices_obey};

use record_rules::numbers::run_in_range;
use record_rules::vertices::parameter_vertex;
use tables::{Tables, Used, widths};

// Every v, vt or vn: all of their numbers are one run.
fn numbers_obey(values: &[i32], width: usize, used: u32) -> bool
    requires { width ≤ 4294967295 }
    ensures { result ≡ all_below used (λ k. vertex_obeys width values.now used (suc k)) }
{
    run_in_range(values, 0, width * (used as usize))
}

// Every vp.
fn parameter_vertices_obey(values: &[i32], used: u32) -> bool
    ensures { result ≡ all_below used (λ k. parameter_vertex_obeys values.now used (suc k)) }
{
    for k in 0..used {
        if !parameter_vertex(values, used, k + 1) {
            return false;
        }
    }
    true
}

#[tactic(auto, unfolding(crate::specs::Whole::vertices_obey))]
pub fn vertices_obey(used: Used, t: &Tables) -> bool
    ensures { result ≡ vertices_obey used (lent t.now) }
{
    numbers_obey(t.v, widths::V, used.v)
        & numbers_obey(t.vt, widths::VT, used.vt)
        & numbers_obey(t.vn, widths::VN, used.vn)
        & parameter_vertices_obey(t.vp, used.vp)
}
