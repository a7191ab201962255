// Corners that name vertices alone: one walk with the fewest tests.
ghost use Rattle.std.specs.Prelude.{◌≡◌, ◌&&◌, ◌*◌, ◌≤◌, eqb, length};
ghost use Rattle.tables.specs.Records.{corners_end, v_width};
ghost use Rattle.record_rules.specs.Bare.{Reach, reached_obeys, each_bare};

use crate::numbers::four_in_range;
use tables::vertices::lent_vertex;
use tables::{Corner, CornerRun, widths};

// How many vertices are both used and lent.
fn reach(values: &[i32], used: u32) -> usize
    ensures { Reach (length values.now) used result }
{
    (used as usize).min(values.len() / widths::V)
}

#[tactic(auto, unfolding(crate::specs::Bare::reached_obeys))]
fn reached(values: &[i32], reach: usize, number: usize) -> bool
    requires { v_width * reach ≤ length values.now }
    ensures { result ≡ reached_obeys values.now reach number }
{
    if number < 1 || reach < number {
        return false;
    }
    let vertex = lent_vertex(values, number - 1);
    four_in_range(vertex.x, vertex.y, vertex.z, vertex.w)
}

fn bare_corner(values: &[i32], reach: usize, corner: Corner) -> bool
    requires { v_width * reach ≤ length values.now }
    ensures { result ≡ (reached_obeys values.now reach corner.v && eqb corner.vt 0 && eqb corner.vn 0) }
{
    reached(values, reach, corner.v as usize) && (corner.vt == 0) & (corner.vn == 0)
}

pub fn each_bare(values: &[i32], used: u32, corners: &[u32], run: CornerRun) -> bool
    requires { corners_end run ≤ length corners.now }
    ensures { result ≡ each_bare values.now used corners.now run }
{
    let reach = reach(values, used);
    for k in 0..run.count as usize {
        if !bare_corner(values, reach, tables::lent_corner(corners, run, k)) {
            return false;
        }
    }
    true
}
