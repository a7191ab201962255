ghost use Rattle.std.specs.Prelude.{◌≡◌, ◌≤◌};
ghost use Rattle.point_rows.specs.Finding.{Sized};
ghost use Rattle.sampler.specs.Points.{body_direction};
ghost use Rattle.sampler.specs.Answers.{wanted, carried, inside};
ghost use Rattle.point_runs.specs.Inner.{axes_by};

use point_rows::BodyDirection;
use tables::{bases, kinds};

pub fn is_wanted(surface: bool, kind: u32) -> bool
    ensures { result ≡ wanted surface kind }
{
    if surface {
        return kind == kinds::SURFACE;
    }
    kind == kinds::CURVE || kind == kinds::CURVE2
}

pub fn is_carried(rational: u32, basis: u32) -> bool
    ensures { result ≡ carried rational basis }
{
    rational == 0 && (basis == bases::BEZIER || basis == bases::BSPLINE)
}

// A direction of type 1 or 2 from its degree and the count of its parameters.
pub fn body_direction(basis: u32, degree: u32, count: u32) -> BodyDirection
    requires { Sized basis degree count }
    ensures { result ≡ body_direction basis degree count }
{
    let n = degree as usize;
    let p = count as usize;
    let controls = if basis == bases::BSPLINE {
        p - n - 1
    } else {
        n * (p - 1) + 1
    };
    BodyDirection {
        basis,
        degree: n,
        controls,
    }
}

// Whether t lies in the range, both ends included.
pub fn is_inside(start: i32, end: i32, t: i32) -> bool
    ensures { result ≡ inside start end t }
{
    start <= t && t <= end
}

// A curv2 has u v, every other kind x y z.
pub fn axes_of(kind: u32) -> usize
    ensures { (result ≡ axes_by kind) × (result ≤ 3) }
{
    if kind == kinds::CURVE2 { 2 } else { 3 }
}
