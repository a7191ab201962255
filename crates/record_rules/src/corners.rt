ghost use Rattle.std.specs.Prelude.{◌≡◌, not, ◌&&◌, eqb};
ghost use Rattle.tables.specs.Records.{curve2_kind};
ghost use Rattle.record_rules.specs.Corners.{least_corners, with_texture, with_normal, attribute_obeys, point_obeys, corner_obeys, each_corner, corners_obey};
ghost use Rattle.tables.specs.Lent.{lent};

use crate::bare::each_bare;
use crate::vertices::{control, vertex};
use tables::{Corner, CornerRun, Tables, Used, kinds, widths};

#[tactic(auto, unfolding(crate::specs::Corners::least_corners))]
fn least_corners(kind: u32) -> u32
    ensures { result ≡ least_corners kind }
{
    match kind {
        kinds::POINT | kinds::SURFACE => 1,
        kinds::FACE => 3,
        _ => 2,
    }
}

#[tactic(auto, unfolding(crate::specs::Corners::with_normal))]
fn with_normal(kind: u32) -> bool
    ensures { result ≡ with_normal kind }
{
    kind == kinds::FACE || kind == kinds::SURFACE
}

#[tactic(auto, unfolding(crate::specs::Corners::with_texture))]
fn with_texture(kind: u32) -> bool
    ensures { result ≡ with_texture kind }
{
    kind == kinds::LINE || with_normal(kind)
}

// A corner's vt or vn number, 0 for none, beside the first corner's.
#[tactic(auto, unfolding(crate::specs::Corners::attribute_obeys))]
fn attribute(allowed: bool, values: &[i32], used: u32, first: u32, number: u32) -> bool
    ensures { result ≡ attribute_obeys allowed values.now used first number }
{
    if number == 0 {
        first == 0
    } else {
        allowed && first != 0 && vertex(values, widths::VT as u32, used, number)
    }
}

#[tactic(auto, unfolding(crate::specs::Corners::point_obeys))]
fn point(used: Used, v: &[i32], vp: &[i32], kind: u32, number: u32) -> bool
    ensures { result ≡ point_obeys used v.now vp.now kind number }
{
    if kind == kinds::CURVE2 {
        control(vp, used.vp, number)
    } else {
        vertex(v, widths::V as u32, used.v, number)
    }
}

#[tactic(auto, unfolding(crate::specs::Corners::corner_obeys))]
fn corner_obeys(used: Used, t: &Tables, kind: u32, first: Corner, own: Corner) -> bool
    ensures { result ≡ corner_obeys used (lent t.now) kind first own }
{
    point(used, t.v, t.vp, kind, own.v)
        && attribute(with_texture(kind), t.vt, used.vt, first.vt, own.vt)
        && attribute(with_normal(kind), t.vn, used.vn, first.vn, own.vn)
}

fn each_corner(used: Used, t: &Tables, kind: u32, run: CornerRun) -> bool
    ensures { result ≡ each_corner used (lent t.now) kind run }
{
    let lead = tables::corner_at(t.corners, run, 0);
    for k in 0..run.count as usize {
        if !corner_obeys(used, t, kind, lead, tables::corner_at(t.corners, run, k)) {
            return false;
        }
    }
    true
}

// Whether every corner is to name a v alone.
fn is_bare(kind: u32, first: Corner) -> bool
    ensures { result ≡ (not (eqb kind curve2_kind) && eqb first.vt 0 && eqb first.vn 0) }
{
    kind != kinds::CURVE2 && first.vt == 0 && first.vn == 0
}

#[tactic(auto, unfolding(crate::specs::Corners::corners_obey))]
pub fn corners_obey(used: Used, t: &Tables, kind: u32, run: CornerRun) -> bool
    ensures { result ≡ corners_obey used (lent t.now) kind run }
{
    let end = tables::corners_end(run);
    if (used.corners as usize) < end || t.corners.len() < end || run.count < least_corners(kind) {
        return false;
    }
    if is_bare(kind, tables::corner_at(t.corners, run, 0)) {
        each_bare(t.v, used.v, t.corners, run)
    } else {
        each_corner(used, t, kind, run)
    }
}
