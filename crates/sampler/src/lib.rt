// Points on curves and surfaces, alone and in runs.
#![tactic(auto)]

ghost use Rattle.std.specs.Prelude.{◌≡◌};
ghost use Rattle.tables.specs.Lent.{lent};
ghost use Rattle.sampler.specs.Answers.{point_answer, point_on_curve, point_on_surface, run_answer, run_into};
ghost use Rattle.sampler.specs.Sampling.{lookup_of};

use crate::records::{is_carried, is_wanted};
use crate::sampling::{curve_at, run_at, surface_at};
use record_rules::loops::curves_for;
use record_rules::records_obey;
use refusals::Reason;
use tables::{Body, Element, Tables, Used};

mod points;
mod records;
pub mod sampling;

// A point's coordinates: of a curv or a surf in space, of a curv2 in the plane of its parameters.
#[derive(Clone, Copy)]
pub enum Point {
    Space { x: i32, y: i32, z: i32 },
    Plane { u: i32, v: i32 },
}

// An element that can be sampled, with its body.
#[derive(Clone, Copy)]
pub struct Found {
    pub element: Element,
    pub body: Body,
}

// 17, 15 and 18, in this order; where none of them is given, what was read.
pub fn look_up(surface: bool, used: Used, t: &Tables, element: u32) -> Result<Found, Reason>
    ensures { result ≡ lookup_of surface used (lent t.now) element }
{
    if element < 1 || used.elements < element {
        return Err(Reason::NoSuchElement);
    }
    let index = element - 1;
    if !tables::element_fits(t.elements, index) {
        return Err(Reason::BrokenRecord);
    }
    let element = tables::lent_element(t.elements, index);
    if !is_wanted(surface, element.kind) {
        return Err(Reason::NoSuchElement);
    }
    let body = table_asking::body_of(used, t.bodies, t.ranges, element.body);
    let curves = curves_for(t.elements, index, body.loops);
    if !records_obey(used, t, curves, element, body) {
        return Err(Reason::BrokenRecord);
    }
    if !is_carried(body.rational, body.basis) {
        return Err(Reason::NotSampled);
    }
    Ok(Found { element, body })
}

// The point at `at` of the curv or curv2 of that number, counted from 1 over all elements.
pub fn point_on_curve(used: Used, t: &Tables, element: u32, at: i32) -> Result<Point, Reason>
    ensures { point_answer result ≡ point_on_curve used (lent t.now) element at }
{
    let found = look_up(false, used, t, element)?;
    curve_at(t, found.element, found.body, at)
}

// The point at `along_u` and `along_v` of the surf of that number.
pub fn point_on_surface(
    used: Used,
    t: &Tables,
    element: u32,
    along_u: i32,
    along_v: i32,
) -> Result<Point, Reason>
    ensures { point_answer result ≡ point_on_surface used (lent t.now) element along_u along_v }
{
    let found = look_up(true, used, t, element)?;
    surface_at(t, found.element, found.body, along_u, along_v)
}

// A run of `steps` steps on a curv or curv2: its points fill the table from entry `at` on, counted in numbers. How many numbers were written.
pub fn run_on_curve(
    used: Used,
    t: &Tables,
    element: u32,
    steps: u32,
    points: &mut [i32],
    at: usize,
) -> Result<usize, Reason>
    ensures { run_answer result points.new ≡ run_into used (lent t.now) element steps at points.old }
{
    let found = look_up(false, used, t, element)?;
    run_at(t, found.element, found.body, steps, points, at)
}
