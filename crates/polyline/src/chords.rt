// A chord's test on every axis, and a point's numbers.
ghost use Rattle.std.specs.Prelude.{◌≡◌, ◌+◌, ◌≤◌, length};
ghost use Rattle.std.proofs.lemmas.List.Edits.{sets};
ghost use Rattle.sampler.specs.Answers.{point_outcome};
ghost use Rattle.point_chords.specs.Chords.{straight};
ghost use Rattle.polyline.specs.Inner.{space_of};

use point_chords::is_near;
use point_rows::Coordinates;
use refusals::Reason;
use sampler::Point;

// A point's coordinates, 0 for each that it lacks.
pub fn space_of(p: Result<Point, Reason>) -> Coordinates
    ensures { result ≡ space_of (point_outcome p).coordinates }
{
    match p {
        Ok(Point::Space { x, y, z }) => Coordinates { x, y, z },
        Ok(Point::Plane { u, v }) => Coordinates { x: u, y: v, z: 0 },
        Err(_) => Coordinates { x: 0, y: 0, z: 0 },
    }
}

pub fn is_straight(
    tolerance: i32,
    p: Result<Point, Reason>,
    m: Result<Point, Reason>,
    q: Result<Point, Reason>,
) -> bool
    ensures { result ≡ straight tolerance (point_outcome p).coordinates (point_outcome m).coordinates (point_outcome q).coordinates }
{
    let a = space_of(p);
    let b = space_of(m);
    let c = space_of(q);
    is_near(tolerance, a.x, b.x, c.x)
        && is_near(tolerance, a.y, b.y, c.y)
        && is_near(tolerance, a.z, b.z, c.z)
}

pub fn axes_in(p: Result<Point, Reason>) -> usize
    ensures { (result ≡ length (point_outcome p).coordinates) × (result ≤ 3) }
{
    match p {
        Ok(Point::Space { .. }) => 3,
        Ok(Point::Plane { .. }) => 2,
        Err(_) => 0,
    }
}

// A point's numbers from place `at` on; the place after them.
pub fn store(points: &mut [i32], at: usize, p: Result<Point, Reason>) -> usize
    requires { at + length (point_outcome p).coordinates ≤ length points.old }
    ensures { (result ≡ at + length (point_outcome p).coordinates) × (points.new ≡ sets points.old at (point_outcome p).coordinates) }
{
    match p {
        Ok(Point::Space { x, y, z }) => {
            points[at] = x;
            points[at + 1] = y;
            points[at + 2] = z;
            at + 3
        }
        Ok(Point::Plane { u, v }) => {
            points[at] = u;
            points[at + 1] = v;
            at + 2
        }
        Err(_) => at,
    }
}
