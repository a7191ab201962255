// The polyline of a curve: few points where it is straight.
#![tactic(auto)]

ghost use Rattle.std.specs.Prelude.{◌≡◌, ◌+◌, ◌≤◌, length};
ghost use Rattle.std.proofs.lemmas.List.Edits.{sets};
ghost use Rattle.tables.specs.Lent.{lent};
ghost use Rattle.sampler.specs.Sampling.{Curved, answer_on_curve};
ghost use Rattle.point_chords.specs.Chords.{ends, numbers};
ghost use Rattle.polyline.specs.Answers.{polyline_into, polyline_answer};
ghost use Rattle.polyline.specs.Inner.{PieceEnds, coordinates_of, split_of, polyline_by};

use crate::chords::{axes_in, is_straight, store};
use point_chords::{is_short, middle_of};
use refusals::Reason;
use sampler::sampling::curve_at;
use sampler::{Point, look_up};
use tables::{Body, Element, Tables, Used};

mod chords;

// How often an interval is halved at most.
const DEPTH: u32 = 12;

// What an interval is halved into: its middle, with what is sampled there.
#[derive(Clone, Copy)]
pub struct Halved {
    pub middle: i32,
    pub point: Result<Point, Reason>,
}

// The halves of the interval from a to b, where p and q are sampled; none where it is a chord.
// Ends are handed on as `curve_at` answers them, refused ones too: it asks nothing of the parameter (decision 371), so that a sample would have to be shown to be no refusal at each call.
fn split_of(
    t: &Tables,
    element: Element,
    body: Body,
    tolerance: i32,
    depth: u32,
    a: i32,
    b: i32,
    p: Result<Point, Reason>,
    q: Result<Point, Reason>,
) -> Option<Halved>
    requires { Curved (lent t.now) element body × PieceEnds (coordinates_of (lent t.now) element body) a b p q }
    ensures { result ≡ split_of (answer_on_curve (lent t.now) element body) tolerance depth a b }
{
    if depth == 0 || is_short(a, b) {
        return None;
    }
    let middle = middle_of(a, b);
    let point = curve_at(t, element, body, middle);
    if is_straight(tolerance, p, point, q) {
        return None;
    }
    Some(Halved { middle, point })
}

// How many chords there are from a to b.
fn count(
    t: &Tables,
    element: Element,
    body: Body,
    tolerance: i32,
    depth: u32,
    a: i32,
    b: i32,
    p: Result<Point, Reason>,
    q: Result<Point, Reason>,
) -> u32
    requires { (depth ≤ 12) × (Curved (lent t.now) element body × PieceEnds (coordinates_of (lent t.now) element body) a b p q) }
    ensures { result ≡ length (ends (coordinates_of (lent t.now) element body) tolerance depth a b) }
{
    let split = split_of(t, element, body, tolerance, depth, a, b, p, q);
    let Some(half) = split else {
        return 1;
    };
    let left = count(
        t,
        element,
        body,
        tolerance,
        depth - 1,
        a,
        half.middle,
        p,
        half.point,
    );
    let right = count(
        t,
        element,
        body,
        tolerance,
        depth - 1,
        half.middle,
        b,
        half.point,
        q,
    );
    left + right
}

// Writes the end of each chord from a to b, from place `at` on; the place after them.
fn write(
    t: &Tables,
    element: Element,
    body: Body,
    tolerance: i32,
    depth: u32,
    a: i32,
    b: i32,
    p: Result<Point, Reason>,
    q: Result<Point, Reason>,
    points: &mut [i32],
    at: usize,
) -> usize
    requires { (at + length (numbers (coordinates_of (lent t.now) element body) (ends (coordinates_of (lent t.now) element body) tolerance depth a b)) ≤ length points.old) × (Curved (lent t.now) element body × PieceEnds (coordinates_of (lent t.now) element body) a b p q) }
    ensures { (result ≡ at + length (numbers (coordinates_of (lent t.now) element body) (ends (coordinates_of (lent t.now) element body) tolerance depth a b))) × (points.new ≡ sets points.old at (numbers (coordinates_of (lent t.now) element body) (ends (coordinates_of (lent t.now) element body) tolerance depth a b))) }
{
    let split = split_of(t, element, body, tolerance, depth, a, b, p, q);
    let Some(half) = split else {
        return store(points, at, q);
    };
    let next = write(
        t,
        element,
        body,
        tolerance,
        depth - 1,
        a,
        half.middle,
        p,
        half.point,
        points,
        at,
    );
    write(
        t,
        element,
        body,
        tolerance,
        depth - 1,
        half.middle,
        b,
        half.point,
        q,
        points,
        next,
    )
}

// The polyline of an element that was looked up: how many points it has.
fn polyline_at(
    t: &Tables,
    element: Element,
    body: Body,
    tolerance: i32,
    points: &mut [i32],
    at: usize,
) -> Result<u32, Reason>
    requires { Curved (lent t.now) element body }
    ensures { polyline_answer result points.new ≡ polyline_by (lent t.now) element body tolerance at points.old }
{
    if tolerance < 0 {
        return Err(Reason::ParameterOutside);
    }
    let start = body.start_u;
    let end = body.end_u;
    let first = curve_at(t, element, body, start);
    let last = curve_at(t, element, body, end);
    let chords = count(t, element, body, tolerance, DEPTH, start, end, first, last);
    let numbers = axes_in(first) * (chords as usize + 1);
    if points.len() < numbers {
        return Err(Reason::NoOutputRoom);
    }
    if points.len() - numbers < at {
        return Err(Reason::NoOutputRoom);
    }
    let next = store(points, at, first);
    write(
        t, element, body, tolerance, DEPTH, start, end, first, last, points, next,
    );
    Ok(chords + 1)
}

// The polyline of the curv or curv2 of that number, counted from 1 over all elements: its points fill the table from entry `at` on, counted in numbers.
pub fn polyline(
    used: Used,
    t: &Tables,
    element: u32,
    tolerance: i32,
    points: &mut [i32],
    at: usize,
) -> Result<u32, Reason>
    ensures { polyline_answer result points.new ≡ polyline_into used (lent t.now) element tolerance at points.old }
{
    let found = look_up(false, used, t, element)?;
    polyline_at(t, found.element, found.body, tolerance, points, at)
}
