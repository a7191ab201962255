ghost use Rattle.std.specs.Prelude.{◌≡◌, cond, suc, ◌+◌, ◌<◌, length};
ghost use Rattle.std.specs.Int.Signed.{lt_z};
ghost use Rattle.point_exact.specs.Directions.{at};
ghost use Rattle.point_rows.specs.Places.{direction};
ghost use Rattle.point_rows.specs.Finding.{limit, Sound, On, Hint};

use crate::BodyDirection;
use tables::bases;

// One past the last segment or span that may be chosen.
fn limit(x: &[i32], along: BodyDirection) -> usize
    requires { 0 < length x.now }
    ensures { result ≡ limit (direction along x.now) }
{
    if along.basis == bases::BSPLINE {
        return along.controls;
    }
    x.len() - 1
}

// Span i where it is not empty, else the one found before.
fn later(x: &[i32], i: usize, found: usize) -> usize
    requires { i + 1 < length x.now }
    ensures { result ≡ cond (lt_z (at x.now i) (at x.now (suc i))) i found }
{
    if x[i] < x[i + 1] {
        return i;
    }
    found
}

// The chosen segment or span, from a hint on: the parameters never decrease, so the search ends at the first past t.
pub fn search(x: &[i32], along: BodyDirection, t: i32, hint: usize, from: usize) -> usize
    requires { Sound along x.now t × Hint along x.now t hint from }
    ensures { On along x.now t result }
{
    let mut found = hint;
    for i in from..limit(x, along) {
        if t < x[i] {
            return found;
        }
        found = later(x, i, found);
    }
    found
}

pub fn find(x: &[i32], along: BodyDirection, t: i32) -> usize
    requires { Sound along x.now t }
    ensures { On along x.now t result }
{
    if along.basis == bases::BSPLINE {
        return search(x, along, t, 0, along.degree);
    }
    search(x, along, t, 0, 0)
}
