// The working row in doubles: a place guessed by leaning to either side, and made exactly where the two differ or doubles are not to be trusted.
#![tactic(auto)]

ghost use Rattle.std.specs.Prelude.{◌≡◌, ◌+◌, ◌-◌, ◌≤◌, ◌<◌, IfSome, nat_abs, ◌-ℤ◌, true, ◌&&◌};
ghost use Rattle.std.specs.Float.Ieee.{eq};
ghost use Rattle.doubles.specs.Doubles.{Encoding, above};
ghost use Rattle.point_exact.specs.Sampled.{offset_at, gap_at};
ghost use Rattle.point_rows.specs.Places.{direction};
ghost use Rattle.point_rows.specs.Finding.{On};
ghost use Rattle.point_guess.specs.Steps.{Encodes, InInterval, Fair, Parted, First, EncodesBetween, Blended, Next, Stepped, Makes};
ghost use Rattle.point_guess.specs.Rows.{Encoded, Descended};

use doubles::{blend, decode, encode, weight};
use point_rows::{BodyDirection, high, low};
use rounding::{between, distance};
use tables::bases;

// A place of the row: a whole number on each of three axes, as doubles.
#[derive(Clone, Copy)]
pub struct Place {
    pub x: f64,
    pub y: f64,
    pub z: f64,
}

// The working row: one place shorter at each level. An array of the most places that a row has, and how many of them count: there is no heap, so no list that grows.
#[derive(Clone, Copy)]
pub struct Row {
    pub places: [Place; 21],
    pub count: usize,
}

// Where a number of a row lies: the parameters from which to which it goes, and the part of the way.
#[derive(Clone, Copy)]
pub struct Interval {
    pub low: i32,
    pub high: i32,
    pub part: f64,
}

// The interval of number j of a row of r + 1 numbers.
fn interval_at(
    x: &[i32],
    along: BodyDirection,
    chosen: usize,
    t: i32,
    r: usize,
    j: usize,
) -> Interval
    requires { On along x.now t chosen × (r < along.degree) × (j ≤ r) }
    ensures { Parted (direction along x.now) t r j result }
{
    let from = low(x, along, t, chosen, r, j);
    let to = high(x, along, t, chosen, r, j);
    Interval {
        low: from,
        high: to,
        part: weight(from, to, t),
    }
}

// The one interval of a Bezier segment. A spline has more, and a row of one number none.
pub fn first_interval(x: &[i32], along: BodyDirection, chosen: usize, t: i32) -> Interval
    requires { On along x.now t chosen }
    ensures { First along x.now t result }
{
    if along.basis == bases::BSPLINE || along.degree == 0 {
        return Interval {
            low: 0,
            high: 0,
            part: 0.0,
        };
    }
    interval_at(x, along, chosen, t, 0, 0)
}

// The interval of number j of a row of r + 1 numbers, from a Bezier segment's one.
pub fn interval_of(
    x: &[i32],
    along: BodyDirection,
    chosen: usize,
    t: i32,
    r: usize,
    j: usize,
    first: Interval,
) -> Interval
    requires { On along x.now t chosen × (r < along.degree) × (j ≤ r) × First along x.now t first }
    ensures { Parted (direction along x.now) t r j result }
{
    if along.basis == bases::BSPLINE {
        return interval_at(x, along, chosen, t, r, j);
    }
    first
}

// Between two numbers by the rounding rule: all numbers are whole and below 2^53, so that no rounding of doubles counts.
fn exact(a: f64, b: f64, low: i32, high: i32, t: i32) -> f64
    requires { Encoding a × Encoding b × InInterval low high t }
    ensures { EncodesBetween a b (nat_abs (t -ℤ low)) (nat_abs (high -ℤ low)) result }
{
    encode(between(decode(a), decode(b), distance(low, t), distance(low, high)))
}

fn exact_place(a: Place, b: Place, gap: Interval, t: i32) -> Place
    requires { Encodes a × Encodes b × Fair gap t }
    ensures { Stepped a b gap t result }
{
    Place {
        x: exact(a.x, b.x, gap.low, gap.high, t),
        y: exact(a.y, b.y, gap.low, gap.high, t),
        z: exact(a.z, b.z, gap.low, gap.high, t),
    }
}

// Place j of a row of r + 1 places by the rounding rule, from two neighbours of the row before.
pub fn exact_at(
    a: Place,
    b: Place,
    x: &[i32],
    along: BodyDirection,
    chosen: usize,
    t: i32,
    r: usize,
    j: usize,
) -> Place
    requires { Encodes a × Encodes b × On along x.now t chosen × (r < along.degree) × (j ≤ r) }
    ensures { Next (offset_at (direction along x.now) t r j) (gap_at (direction along x.now) t r j) a b result }
{
    exact_place(a, b, interval_at(x, along, chosen, t, r, j), t)
}

// From a towards b by the weight w, and e further.
fn lean(a: Place, b: Place, w: f64, e: f64) -> Place
    ensures { Blended a b w e result }
{
    Place {
        x: blend(a.x, b.x, w, e),
        y: blend(a.y, b.y, w, e),
        z: blend(a.z, b.z, w, e),
    }
}

fn same(a: Place, b: Place) -> bool
    ensures { result ≡ ((eq a.x b.x && eq a.y b.y) && eq a.z b.z) }
{
    (a.x == b.x) & (a.y == b.y) & (a.z == b.z)
}

// A place of the next row guessed in doubles, from two neighbours of this one.
pub fn guessed(a: Place, b: Place, gap: Interval) -> Place
    ensures { Blended a b gap.part above result }
{
    lean(a, b, gap.part, 0.0000152587890625)
}

// Whether a guess with the slack the other way is the same.
pub fn certain(trusted: bool, a: Place, b: Place, gap: Interval, guess: Place) -> bool
    requires { Encodes a × Encodes b × Blended a b gap.part above guess }
    ensures { result ≡ true → Makes a b gap guess }
{
    let other = lean(a, b, gap.part, -0.0000152587890625);
    trusted & same(guess, other)
}

// Whether sums go to the nearest double, which beside the anchor are whole numbers: a host may have set another rounding.
pub fn to_nearest(a: f64) -> bool {
    (a + 0.75 == a + 1.0) & (a + 0.25 == a)
}

// Level by level from n + 1 places to one.
pub fn descend(
    row: Row,
    trusted: bool,
    x: &[i32],
    along: BodyDirection,
    chosen: usize,
    t: i32,
) -> Place
    requires { On along x.now t chosen × Encoded row.places row.count × (row.count ≡ along.degree + 1) }
    ensures { Descended (direction along x.now) t row.places result }
{
    let first = first_interval(x, along, chosen, t);
    let mut rest = row;
    // The rules name this form: the working row is shortened by one at each level. So the loop goes by its count and not over a range.
    while 1 < rest.count {
        let last = rest.count - 1;
        let mut a = rest.places[0];
        for i in 0..last {
            let b = rest.places[i + 1];
            let gap = interval_of(x, along, chosen, t, last - 1, i, first);
            let mut p = guessed(a, b, gap);
            if !certain(trusted, a, b, gap, p) {
                p = exact_at(a, b, x, along, chosen, t, last - 1, i);
            }
            rest.places[i] = p;
            a = b;
        }
        rest.count = last;
    }
    rest.places[0]
}

// Level by level in doubles alone; none where a level has a place that is not certain. It has one call, with the degree a number in the program, and so is written out there.
pub fn guess_point(
    row: Row,
    trusted: bool,
    x: &[i32],
    along: BodyDirection,
    chosen: usize,
    t: i32,
) -> Option<Place>
    requires { On along x.now t chosen × Encoded row.places (along.degree + 1) }
    ensures { IfSome result (λ p. Descended (direction along x.now) t row.places p) }
{
    let first = first_interval(x, along, chosen, t);
    let mut work = row;
    for last in (1..along.degree + 1).rev() {
        let mut sure = true;
        let mut a = work.places[0];
        for i in 0..last {
            let b = work.places[i + 1];
            let gap = interval_of(x, along, chosen, t, last - 1, i, first);
            let p = guessed(a, b, gap);
            sure = sure & certain(trusted, a, b, gap, p);
            work.places[i] = p;
            a = b;
        }
        if !sure {
            return None;
        }
        work.count = last;
    }
    Some(work.places[0])
}
