// Points: the controls of a segment or span gathered into a row, the row worked down, and what it comes to decoded.
#![tactic(auto)]

ghost use Rattle.std.specs.Prelude.{◌≡◌, ◌+◌, ◌*◌, ◌≤◌, length};
ghost use Rattle.doubles.specs.Doubles.{decode};
ghost use Rattle.point_rows.specs.Places.{direction};
ghost use Rattle.point_rows.specs.Finding.{On};
ghost use Rattle.point_rows.specs.Coordinates.{HasCoordinates};
ghost use Rattle.point_rows.specs.Controls.{control_at, ControlsLent};
ghost use Rattle.point_guess.specs.Steps.{Encodes};
ghost use Rattle.point_guess.specs.Rows.{PlaceHolds};
ghost use Rattle.point_single.specs.Points.{entry_of, Gathered, There, Spanned, CurvePlace, CurvePoint, SurfacePoint};

use doubles::{decode, encode};
use point_guess::{Place, Row, descend, to_nearest};
use point_rows::controls::{control, first_control};
use point_rows::{BodyDirection, Coordinates};

// The point that a place keeps.
pub fn point_at(p: Place) -> Coordinates
    requires { Encodes p }
    ensures { HasCoordinates result (decode p.x) (decode p.y) (decode p.z) }
{
    Coordinates {
        x: decode(p.x),
        y: decode(p.y),
        z: decode(p.z),
    }
}

// Control i, from number `axis` of its vertex on.
fn place_of(values: &[i32], corners: &[u32], first: u32, axis: usize, i: usize) -> Place
    requires { ControlsLent values.now corners.now first i (i + 1) × (axis ≤ 1) }
    ensures { PlaceHolds result (λ k. control_at values.now corners.now first (entry_of axis k) i) }
{
    Place {
        x: encode(control(values, corners, first, axis, i)),
        y: encode(control(values, corners, first, axis + 1, i)),
        z: encode(control(values, corners, first, axis + 2, i)),
    }
}

// A row of n + 1 places, none of them set.
fn empty(n: usize) -> Row
    requires { n ≤ 20 }
    ensures { (result.count ≡ n + 1) × (length result.places ≡ 21) }
{
    let place = Place {
        x: 0.0,
        y: 0.0,
        z: 0.0,
    };
    Row {
        places: [place; 21],
        count: n + 1,
    }
}

// The n + 1 controls from control `from` on.
fn gather(values: &[i32], corners: &[u32], first: u32, axis: usize, from: usize, n: usize) -> Row
    requires { ControlsLent values.now corners.now first from (from + n + 1) × (axis ≤ 1) × (n ≤ 20) }
    ensures { Gathered result n (n + 1) (λ k j. control_at values.now corners.now first (entry_of axis k) (from + j)) }
{
    let mut row = empty(n);
    for j in 0..row.count {
        let p = place_of(values, corners, first, axis, from + j);
        row.places[j] = p;
    }
    row
}

// The controls of the chosen segment or span, of those from control `base` on.
pub fn gather_span(
    values: &[i32],
    corners: &[u32],
    first: u32,
    base: usize,
    axis: usize,
    along: BodyDirection,
    chosen: usize,
) -> Row
    requires { ControlsLent values.now corners.now first base (base + along.controls) × (axis ≤ 1) × There along chosen }
    ensures { Spanned result values.now corners.now first base axis along chosen }
{
    let from = first_control(along, chosen);
    gather(values, corners, first, axis, base + from, along.degree)
}

// The place at t of a curve whose controls are those from control `base` on.
fn curve_place(
    values: &[i32],
    corners: &[u32],
    first: u32,
    base: usize,
    axis: usize,
    x: &[i32],
    along: BodyDirection,
    chosen: usize,
    t: i32,
) -> Place
    requires { ControlsLent values.now corners.now first base (base + along.controls) × (axis ≤ 1) × On along x.now t chosen }
    ensures { CurvePlace values.now corners.now first base axis (direction along x.now) t result }
{
    let row = gather_span(values, corners, first, base, axis, along, chosen);
    let a = row.places[0];
    descend(row, to_nearest(a.x), x, along, chosen, t)
}

// A curve's point at t.
pub fn curve_point(
    values: &[i32],
    corners: &[u32],
    first: u32,
    axis: usize,
    x: &[i32],
    along: BodyDirection,
    chosen: usize,
    t: i32,
) -> Coordinates
    requires { ControlsLent values.now corners.now first 0 along.controls × (axis ≤ 1) × On along x.now t chosen }
    ensures { CurvePoint values.now corners.now first axis (direction along x.now) t result }
{
    point_at(curve_place(values, corners, first, 0, axis, x, along, chosen, t))
}

// A surface's point at s and t: u first along each row, then v.
pub fn across(
    values: &[i32],
    corners: &[u32],
    first: u32,
    x: &[i32],
    u: BodyDirection,
    s: i32,
    across_u: usize,
    y: &[i32],
    v: BodyDirection,
    t: i32,
    across_v: usize,
) -> Coordinates
    requires { ControlsLent values.now corners.now first 0 (u.controls * v.controls) × On u x.now s across_u × On v y.now t across_v }
    ensures { SurfacePoint values.now corners.now first (direction u x.now) (direction v y.now) s t result }
{
    let top = first_control(v, across_v);
    let mut column = empty(v.degree);
    for j in 0..column.count {
        let base = (top + j) * u.controls;
        let p = curve_place(values, corners, first, base, 0, x, u, across_u, s);
        column.places[j] = p;
    }
    let a = column.places[0];
    point_at(descend(column, to_nearest(a.x), y, v, across_v, t))
}
