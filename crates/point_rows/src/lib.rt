// What a point's working row is made from: the segment or span found, its parameters and its controls.
#![tactic(auto)]

ghost use Rattle.std.specs.Prelude.{◌≡◌, ◌≤◌, ◌<◌};
ghost use Rattle.rounding.specs.Range.{InRange};
ghost use Rattle.point_exact.specs.Sampled.{low_at, high_at};
ghost use Rattle.point_rows.specs.Places.{direction};
ghost use Rattle.point_rows.specs.Finding.{On};

use tables::bases;

pub mod controls;
pub mod search;

// Three numbers of a vertex or of a point, one on each axis.
#[derive(Clone, Copy)]
pub struct Coordinates {
    pub x: i32,
    pub y: i32,
    pub z: i32,
}

// A direction but for its parameters.
#[derive(Clone, Copy)]
pub struct BodyDirection {
    pub basis: u32,
    pub degree: usize,
    pub controls: usize,
}

// The parameters from which to which number j of a row of r + 1 numbers goes.
pub fn low(x: &[i32], along: BodyDirection, t: i32, chosen: usize, r: usize, j: usize) -> i32
    requires { On along x.now t chosen × (r < along.degree) × (j ≤ r) }
    ensures { (result ≡ low_at (direction along x.now) t r j) × InRange result }
{
    if along.basis == bases::BSPLINE {
        return x[chosen + j - r];
    }
    x[chosen]
}

pub fn high(x: &[i32], along: BodyDirection, t: i32, chosen: usize, r: usize, j: usize) -> i32
    requires { On along x.now t chosen × (r < along.degree) × (j ≤ r) }
    ensures { (result ≡ high_at (direction along x.now) t r j) × InRange result }
{
    if along.basis == bases::BSPLINE {
        return x[chosen + j + 1];
    }
    x[chosen + 1]
}
