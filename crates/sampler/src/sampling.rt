// Points of an element that was looked up.
ghost use Rattle.std.specs.Prelude.{◌≡◌};
ghost use Rattle.tables.specs.Lent.{lent};
ghost use Rattle.sampler.specs.Answers.{point_answer, run_answer};
ghost use Rattle.sampler.specs.Sampling.{Curved, Surfaced, answer_on_curve, answer_on_surface, answer_of_run};

use crate::Point;
use crate::points::{curve_point, surface_point};
use crate::records::{axes_of, body_direction, is_inside};
use point_runs::write_run;
use refusals::Reason;
use tables::{Body, Element, Tables};

pub fn curve_at(t: &Tables, element: Element, body: Body, at: i32) -> Result<Point, Reason>
    requires { Curved (lent t.now) element body }
    ensures { point_answer result ≡ answer_on_curve (lent t.now) element body at }
{
    if !is_inside(body.start_u, body.end_u, at) {
        return Err(Reason::ParameterOutside);
    }
    let along = body_direction(body.basis, body.degree_u, body.count_u);
    let from = body.first_parameter as usize;
    let to = from + body.count_u as usize;
    let x = &t.parameters[from..to];
    let first = element.corners.first;
    Ok(curve_point(element.kind, t.v, t.vp, t.corners, first, x, along, at))
}

pub fn surface_at(
    t: &Tables,
    element: Element,
    body: Body,
    along_u: i32,
    along_v: i32,
) -> Result<Point, Reason>
    requires { Surfaced (lent t.now) element body }
    ensures { point_answer result ≡ answer_on_surface (lent t.now) element body along_u along_v }
{
    if !is_inside(body.start_u, body.end_u, along_u) {
        return Err(Reason::ParameterOutside);
    }
    if !is_inside(body.start_v, body.end_v, along_v) {
        return Err(Reason::ParameterOutside);
    }
    let u = body_direction(body.basis, body.degree_u, body.count_u);
    let v = body_direction(body.basis, body.degree_v, body.count_v);
    let from = body.first_parameter as usize;
    let middle = from + body.count_u as usize;
    let to = middle + body.count_v as usize;
    let x = &t.parameters[from..middle];
    let y = &t.parameters[middle..to];
    let first = element.corners.first;
    Ok(surface_point(t.v, t.corners, first, x, u, along_u, y, v, along_v))
}

// How many numbers the run has.
pub fn run_at(
    t: &Tables,
    element: Element,
    body: Body,
    steps: u32,
    points: &mut [i32],
    at: usize,
) -> Result<usize, Reason>
    requires { Curved (lent t.now) element body }
    ensures { run_answer result points.new ≡ answer_of_run (lent t.now) element body steps at points.old }
{
    if steps < 1 || 65536 < steps {
        return Err(Reason::ParameterOutside);
    }
    let numbers = axes_of(element.kind) * (steps as usize + 1);
    if points.len() < numbers {
        return Err(Reason::NoOutputRoom);
    }
    if points.len() - numbers < at {
        return Err(Reason::NoOutputRoom);
    }
    let along = body_direction(body.basis, body.degree_u, body.count_u);
    let from = body.first_parameter as usize;
    let to = from + body.count_u as usize;
    let x = &t.parameters[from..to];
    write_run(
        &mut points[at..],
        element.kind,
        t.v,
        t.vp,
        t.corners,
        element.corners.first,
        x,
        along,
        body.start_u,
        body.end_u,
        steps,
    );
    Ok(numbers)
}
