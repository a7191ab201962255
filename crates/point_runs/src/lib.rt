// Runs on curves: the parameters that a run samples at, and its points.
#![tactic(auto)]

ghost use Rattle.std.specs.Prelude.{◌≡◌, cond, ◌++◌, ◌+◌, ◌*◌, ◌≤◌, ◌<◌, eqb, length, drop, ◌≤ℤ◌};
ghost use Rattle.rounding.specs.Range.{InRange};
ghost use Rattle.tables.specs.Records.{curve2_kind};
ghost use Rattle.point_rows.specs.Controls.{ControlsLent};
ghost use Rattle.point_runs.specs.Runs.{parameter_at, tabulated};
ghost use Rattle.point_runs.specs.Inner.{coordinate_of, points_upto, Ranged, run_by, axes_by};

use point_guess::{
    certain, exact_at, first_interval, guess_point, guessed, interval_of, to_nearest,
};
use point_rows::BodyDirection;
use point_rows::search::{find, search};
use point_single::{gather_span, point_at};
use rounding::distance;
use tables::kinds;
use tables::vertices::{V_START, VP_START};

// The parameter of point j of a run: at most 65,536 times 4,000,000,000 is multiplied out.
fn parameter_at(start: i32, end: i32, steps: u32, j: u32) -> i32
    requires { (start ≤ℤ end) × InRange start × InRange end × (0 < steps) × (steps ≤ 65536) × (j ≤ steps) }
    ensures { (result ≡ parameter_at start end steps j) × InRange result }
{
    let part = j as u64 * distance(start, end) / steps as u64;
    (start as i64 + part as i64) as i32
}

// A point's two or three coordinates, at the front of what is lent.
fn write_point(points: &mut [i32], axes: usize, x: i32, y: i32, z: i32)
    requires { (2 ≤ axes) × (axes ≤ 3) × (axes ≤ length points.old) }
    ensures { points.new ≡ tabulated axes (coordinate_of x y z) ++ drop axes points.old }
{
    points[0] = x;
    points[1] = y;
    if axes == 3 {
        points[2] = z;
    }
}

// The points of a run, at the front of what is lent; each search goes on from the segment or span before, whose controls stand gathered.
pub fn write_points(
    points: &mut [i32],
    values: &[i32],
    corners: &[u32],
    first: u32,
    axis: usize,
    axes: usize,
    x: &[i32],
    along: BodyDirection,
    start: i32,
    end: i32,
    steps: u32,
)
    requires { ControlsLent values.now corners.now first 0 along.controls × (axis ≤ 1) × (2 ≤ axes) × (axes ≤ 3) × Ranged along x.now start end × (0 < steps) × (steps ≤ 65536) × (axes * (steps + 1) ≤ length points.old) }
    ensures { points.new ≡ points_upto values.now corners.now first axis axes along x.now start end steps (steps + 1) ++ drop (axes * (steps + 1)) points.old }
{
    let mut chosen = find(x, along, start);
    let mut row = gather_span(values, corners, first, 0, axis, along, chosen);
    let zero = row.places[0];
    let trusted = to_nearest(zero.x);
    let n = along.degree;
    let mut rest = row;
    for j in 0..steps + 1 {
        let t = parameter_at(start, end, steps, j);
        let next = search(x, along, t, chosen, chosen + 1);
        if next != chosen {
            row = gather_span(values, corners, first, 0, axis, along, next);
            chosen = next;
        }
        // A cubic is guessed whole first: with its degree a number in the program the compiler writes the three levels out.
        let guess = if n == 3 {
            let cubic = BodyDirection {
                basis: along.basis,
                degree: 3,
                controls: along.controls,
            };
            guess_point(row, trusted, x, cubic, chosen, t)
        } else {
            None
        };
        let made = match guess {
            Some(place) => place,
            None => {
                let one_gap = first_interval(x, along, chosen, t);
                // The first level reads the controls and writes the working row, so that nothing is copied.
                let mut a = row.places[0];
                for i in 0..n {
                    let b = row.places[i + 1];
                    let gap = interval_of(x, along, chosen, t, n - 1, i, one_gap);
                    let mut p = guessed(a, b, gap);
                    if !certain(trusted, a, b, gap, p) {
                        p = exact_at(a, b, x, along, chosen, t, n - 1, i);
                    }
                    rest.places[i] = p;
                    a = b;
                }
                // The rules name this form: the working row is shortened by one at each level. So the loop goes by its count and not over a range.
                rest.count = n;
                while 1 < rest.count {
                    let last = rest.count - 1;
                    let mut a = rest.places[0];
                    for i in 0..last {
                        let b = rest.places[i + 1];
                        let gap = interval_of(x, along, chosen, t, last - 1, i, one_gap);
                        let mut p = guessed(a, b, gap);
                        if !certain(trusted, a, b, gap, p) {
                            p = exact_at(a, b, x, along, chosen, t, last - 1, i);
                        }
                        rest.places[i] = p;
                        a = b;
                    }
                    rest.count = last;
                }
                // Degree 0 has no level.
                if n == 0 {
                    row.places[0]
                } else {
                    rest.places[0]
                }
            }
        };
        let point = point_at(made);
        let at = axes * j as usize;
        write_point(&mut points[at..], axes, point.x, point.y, point.z);
    }
}

// The points of a run on a curv, or on a curv2 by the kind.
pub fn write_run(
    points: &mut [i32],
    kind: u32,
    v: &[i32],
    vp: &[i32],
    corners: &[u32],
    first: u32,
    x: &[i32],
    along: BodyDirection,
    start: i32,
    end: i32,
    steps: u32,
)
    requires { ControlsLent (cond (eqb kind curve2_kind) vp.now v.now) corners.now first 0 along.controls × Ranged along x.now start end × (0 < steps) × (steps ≤ 65536) × (axes_by kind * (steps + 1) ≤ length points.old) }
    ensures { points.new ≡ run_by kind v.now vp.now corners.now first along x.now start end steps ++ drop (axes_by kind * (steps + 1)) points.old }
{
    if kind == kinds::CURVE2 {
        write_points(
            points, vp, corners, first, VP_START, 2, x, along, start, end, steps,
        );
    } else {
        write_points(
            points, v, corners, first, V_START, 3, x, along, start, end, steps,
        );
    }
}
