ghost use Rattle.std.specs.Prelude.{◌≡◌, ◌+◌, ◌≤◌, length};
ghost use Rattle.record_rules.specs.Directions.{degree_obeys, type_obeys, parameters_obey};
ghost use Rattle.record_rules.specs.Bodies.{flat_obeys, curve_obeys, directions_obey, surface_obeys, record_obeys};
ghost use Rattle.tables.specs.Lent.{lent};

use crate::loops::loops_with;
use crate::numbers::run_in_range;
use basis::{curve_count, in_order, surface_count, widest};
use tables::{Body, Tables, Used, bases, kinds, limits};

#[tactic(auto, unfolding(crate::specs::Directions::degree_obeys))]
fn degree_obeys(basis: u32, n: u32) -> bool
    ensures { result ≡ degree_obeys basis n }
{
    1 <= n && n <= limits::DEGREE && (basis != bases::CARDINAL || n == limits::CARDINAL_DEGREE)
}

#[tactic(auto, unfolding(crate::specs::Directions::type_obeys))]
fn type_obeys(surface: bool, basis: u32, rational: u32, m: u32, n: u32) -> bool
    ensures { result ≡ type_obeys surface basis rational m n }
{
    bases::BEZIER <= basis
        && basis <= bases::TAYLOR
        && rational <= 1
        && degree_obeys(basis, m)
        && if surface {
            degree_obeys(basis, n)
        } else {
            n == 0
        }
}

#[tactic(auto, unfolding(crate::specs::Directions::parameters_obey))]
fn parameters_obey(surface: bool, values: &[i32], used: u32, first: u32, p: u32, q: u32) -> bool
    ensures { result ≡ parameters_obey surface values.now used first p q }
{
    let count = p as usize + q as usize;
    first as usize + count <= used as usize
        && run_in_range(values, first as usize, count)
        && 2 <= p
        && if surface { 2 <= q } else { q == 0 }
}

// A curve has no v range and no loops.
#[tactic(auto, unfolding(crate::specs::Bodies::flat_obeys))]
fn flat_obeys(body: Body) -> bool
    ensures { result ≡ flat_obeys body }
{
    body.start_v == 0 && body.end_v == 0 && body.first_loop == 0 && body.loops == 0
}

#[tactic(auto, unfolding(crate::specs::Bodies::curve_obeys))]
fn curve_obeys(curv2: bool, x: &[i32], body: Body, count: u32) -> bool
    requires { (length x.now ≡ body.count_u) × (2 ≤ length x.now) }
    ensures { result ≡ curve_obeys curv2 x.now body count }
{
    let n = body.degree_u;
    curve_count(body.basis, n, body.count_u, count)
        && in_order(body.basis, n, x, body.start_u, body.end_u)
        && widest(curv2, body.basis, n, x, body.start_u, body.end_u)
        && flat_obeys(body)
}

#[tactic(auto, unfolding(crate::specs::Bodies::directions_obey))]
fn directions_obey(x: &[i32], y: &[i32], body: Body, count: u32) -> bool
    requires { (length x.now ≡ body.count_u) × (2 ≤ length x.now) × (length y.now ≡ body.count_v) × (2 ≤ length y.now) }
    ensures { result ≡ directions_obey x.now y.now body count }
{
    let m = body.degree_u;
    let n = body.degree_v;
    surface_count(body.basis, m, body.count_u, n, body.count_v, count)
        && in_order(body.basis, m, x, body.start_u, body.end_u)
        && in_order(body.basis, n, y, body.start_v, body.end_v)
}

#[tactic(auto, unfolding(crate::specs::Bodies::surface_obeys))]
fn surface_obeys(used: u32, t: &Tables, curves: u32, count: u32, body: Body) -> bool
    requires { (body.first_parameter + (body.count_u + body.count_v) ≤ length t.now.parameters.now) × (2 ≤ body.count_u) × (2 ≤ body.count_v) }
    ensures { result ≡ surface_obeys used (lent t.now) curves count body }
{
    let start = body.first_parameter as usize;
    let middle = start + body.count_u as usize;
    let end = middle + body.count_v as usize;
    let x = &t.parameters[start..middle];
    let y = &t.parameters[middle..end];
    directions_obey(x, y, body, count)
        && loops_with(used, t.loops, t.spans, curves, body.first_loop, body.loops)
}

// The body of an element of that kind with `count` corners, after `curves` curv2 elements.
#[tactic(auto, unfolding(crate::specs::Bodies::record_obeys))]
pub fn record_with(used: Used, t: &Tables, curves: u32, kind: u32, count: u32, body: Body) -> bool
    ensures { result ≡ record_obeys used (lent t.now) curves kind count body }
{
    let surface = kind == kinds::SURFACE;
    if !type_obeys(
        surface,
        body.basis,
        body.rational,
        body.degree_u,
        body.degree_v,
    ) || !parameters_obey(
        surface,
        t.parameters,
        used.parameters,
        body.first_parameter,
        body.count_u,
        body.count_v,
    ) {
        return false;
    }
    if surface {
        return surface_obeys(used.loops, t, curves, count, body);
    }
    let start = body.first_parameter as usize;
    let end = start + body.count_u as usize;
    curve_obeys(
        kind == kinds::CURVE2,
        &t.parameters[start..end],
        body,
        count,
    )
}
