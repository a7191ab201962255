// A coordinate of a cubic Bezier curve at a 64th of a segment: four controls by one row of a table of weights.
#![tactic(auto)]

ghost use Rattle.std.specs.Prelude.{◌≡◌, ◌+◌, ◌*◌, ◌≤◌};
ghost use Rattle.rounding.specs.Range.{InRange};
ghost use Rattle.point_rows.specs.Coordinates.{HasCoordinates};
ghost use Rattle.point_rows.specs.Controls.{control_at, ControlsLent};
ghost use Rattle.point_weights.specs.Weights.{weighed};
ghost use Rattle.point_weights.specs.Inner.{weight_row, axis_by};

use crate::weights::row;
use point_rows::{Coordinates, controls};
use rounding::{rounded, weighted};

mod weights;

// Three numbers, from number `entry` on, of the vertex that control i names.
fn control(values: &[i32], corners: &[u32], first: u32, entry: usize, i: usize) -> Coordinates
    requires { ControlsLent values.now corners.now first i (i + 1) × (entry ≤ 1) }
    ensures { HasCoordinates result (control_at values.now corners.now first entry i) (control_at values.now corners.now first (entry + 1) i) (control_at values.now corners.now first (entry + 2) i) }
{
    Coordinates {
        x: controls::control(values, corners, first, entry, i),
        y: controls::control(values, corners, first, entry + 1, i),
        z: controls::control(values, corners, first, entry + 2, i),
    }
}

// Four numbers by the weights of a row: the sum, divided once.
fn divided(j: u32, w: [u32; 4], a: i32, b: i32, c: i32, d: i32) -> i32
    requires { (w ≡ weight_row j) × (j ≤ 64) × InRange a × InRange b × InRange c × InRange d }
    ensures { (result ≡ weighed j a b c d) × InRange result }
{
    let n = weighted(a, w[0] as u64)
        + weighted(b, w[1] as u64)
        + weighted(c, w[2] as u64)
        + weighted(d, w[3] as u64);
    rounded(n, 262144)
}

// The three coordinates at j/64 of a segment, from number `entry` of each vertex on.
pub fn coordinates(
    values: &[i32],
    corners: &[u32],
    first: u32,
    entry: usize,
    segment: u32,
    j: u32,
) -> Coordinates
    requires { ControlsLent values.now corners.now first 0 (segment * 3 + 4) × (entry ≤ 1) × (j ≤ 64) }
    ensures { HasCoordinates result (axis_by values.now corners.now first segment j entry) (axis_by values.now corners.now first segment j (entry + 1)) (axis_by values.now corners.now first segment j (entry + 2)) }
{
    let from = segment as usize * 3;
    let w = row(j);
    let a = control(values, corners, first, entry, from);
    let b = control(values, corners, first, entry, from + 1);
    let c = control(values, corners, first, entry, from + 2);
    let d = control(values, corners, first, entry, from + 3);
    Coordinates {
        x: divided(j, w, a.x, b.x, c.x, d.x),
        y: divided(j, w, a.y, b.y, c.y, d.y),
        z: divided(j, w, a.z, b.z, c.z, d.z),
    }
}
