// Points of cubic Bezier curves at the 64ths of a segment, from one table of weights.
#![tactic(auto)]

ghost use Rattle.std.specs.Prelude.{◌≡◌};
ghost use Rattle.tables.specs.Lent.{lent};
ghost use Rattle.sampler.specs.Answers.{point_answer};
ghost use Rattle.sampler.specs.Sampling.{Curved};
ghost use Rattle.point_cubics.specs.Answers.{cubic_at};
ghost use Rattle.point_cubics.specs.Inner.{step_answer};

use crate::points::point;
use crate::steps::{is_cubic, is_reached};
use refusals::Reason;
use sampler::{Point, look_up};
use tables::{Body, Element, Tables, Used};

mod points;
mod steps;

// The same of an element that was looked up.
fn step_at(t: &Tables, element: Element, body: Body, segment: u32, j: u32) -> Result<Point, Reason>
    requires { Curved (lent t.now) element body }
    ensures { point_answer result ≡ step_answer (lent t.now) element body segment j }
{
    if !is_cubic(body.basis, body.degree_u) {
        return Err(Reason::NotSampled);
    }
    let from = body.first_parameter as usize;
    let to = from + body.count_u as usize;
    let x = &t.parameters[from..to];
    if !is_reached(x, body.start_u, body.end_u, segment, j) {
        return Err(Reason::ParameterOutside);
    }
    let first = element.corners.first;
    Ok(point(element.kind, t.v, t.vp, t.corners, first, segment, j))
}

// The point at j/64 of a segment of the curv or curv2 of that number; segments count from 0.
pub fn cubic_at(used: Used, t: &Tables, element: u32, segment: u32, j: u32) -> Result<Point, Reason>
    ensures { point_answer result ≡ cubic_at used (lent t.now) element segment j }
{
    let found = look_up(false, used, t, element)?;
    step_at(t, found.element, found.body, segment, j)
}
