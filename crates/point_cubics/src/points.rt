ghost use Rattle.std.specs.Prelude.{◌≡◌, cond, ◌+◌, ◌*◌, ◌≤◌, eqb};
ghost use Rattle.tables.specs.Records.{curve2_kind};
ghost use Rattle.point_rows.specs.Controls.{ControlsLent};
ghost use Rattle.point_cubics.specs.Inner.{step_point_by};

use point_weights::coordinates;
use sampler::Point;
use tables::kinds;
use tables::vertices::{V_START, VP_START};

// The point of a curv, or of a curv2 by the kind.
pub fn point(
    kind: u32,
    v: &[i32],
    vp: &[i32],
    corners: &[u32],
    first: u32,
    segment: u32,
    j: u32,
) -> Point
    requires { ControlsLent (cond (eqb kind curve2_kind) vp.now v.now) corners.now first 0 (segment * 3 + 4) × (j ≤ 64) }
    ensures { result ≡ step_point_by kind v.now vp.now corners.now first segment j }
{
    if kind == kinds::CURVE2 {
        let p = coordinates(vp, corners, first, VP_START, segment, j);
        return Point::Plane { u: p.x, v: p.y };
    }
    let p = coordinates(v, corners, first, V_START, segment, j);
    Point::Space {
        x: p.x,
        y: p.y,
        z: p.z,
    }
}
