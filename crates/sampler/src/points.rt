ghost use Rattle.std.specs.Prelude.{◌≡◌, cond, ◌*◌, eqb};
ghost use Rattle.tables.specs.Records.{curve2_kind};
ghost use Rattle.point_rows.specs.Finding.{Sound};
ghost use Rattle.point_rows.specs.Controls.{ControlsLent};
ghost use Rattle.sampler.specs.Inner.{point_by, surface_by};

use crate::Point;
use point_rows::BodyDirection;
use point_rows::search::find;
use point_single::across;
use tables::kinds;
use tables::vertices::{V_START, VP_START};

// The point at t of a curv, or of a curv2 by the kind.
pub fn curve_point(
    kind: u32,
    v: &[i32],
    vp: &[i32],
    corners: &[u32],
    first: u32,
    x: &[i32],
    along: BodyDirection,
    t: i32,
) -> Point
    requires { ControlsLent (cond (eqb kind curve2_kind) vp.now v.now) corners.now first 0 along.controls × Sound along x.now t }
    ensures { result ≡ point_by kind v.now vp.now corners.now first along x.now t }
{
    let chosen = find(x, along, t);
    if kind == kinds::CURVE2 {
        let p = point_single::curve_point(vp, corners, first, VP_START, x, along, chosen, t);
        return Point::Plane { u: p.x, v: p.y };
    }
    let p = point_single::curve_point(v, corners, first, V_START, x, along, chosen, t);
    Point::Space {
        x: p.x,
        y: p.y,
        z: p.z,
    }
}

// The point at s and t of a surf; each direction's segment or span is found once.
pub fn surface_point(
    values: &[i32],
    corners: &[u32],
    first: u32,
    x: &[i32],
    u: BodyDirection,
    s: i32,
    y: &[i32],
    v: BodyDirection,
    t: i32,
) -> Point
    requires { ControlsLent values.now corners.now first 0 (u.controls * v.controls) × Sound u x.now s × Sound v y.now t }
    ensures { result ≡ surface_by values.now corners.now first u v x.now y.now s t }
{
    let in_u = find(x, u, s);
    let in_v = find(y, v, t);
    let p = across(values, corners, first, x, u, s, in_u, y, v, t, in_v);
    Point::Space {
        x: p.x,
        y: p.y,
        z: p.z,
    }
}
