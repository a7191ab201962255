// Texts, and the points on each of their elements, in tables of 16,384 entries. A case is a line and then the text: the text's length, the steps of a run, a
// number of element, and what the case shows, which is written again before the answers for that number and the next two. The parameters asked for are the first two numbers of the text's first vn, the tolerance of a polyline is its third.
// The step of a cubic is that of segment 0 whose number is the run's steps.
#![tactic(auto)]

ghost use Rattle.std.specs.Prelude.{◌≤◌, ◌<◌, IfOk, length};

use case_files::{line_end, number_at};
use refusals::Reason;
use sampler::Point;
use std::fmt::Display;
use std::io;
use std::process::ExitCode;
use streams::Failure;
use tables::{Tables, TablesMut, Used};

fn put_refusal(rt: &impl Print, reason: Reason) -> io::Result<()> {
    let number = reason.number();
    print!(rt; " refused {number}")
}

fn put_numbers(rt: &impl Print, numbers: &[i32]) -> io::Result<()> {
    for n in numbers {
        print!(rt; " {n}")?;
    }
    Ok(())
}

fn put_point(rt: &impl Print, sampled: Result<Point, Reason>) -> io::Result<()> {
    match sampled {
        Ok(Point::Space { x, y, z }) => print!(rt; " {x} {y} {z}"),
        Ok(Point::Plane { u, v }) => print!(rt; " {u} {v}"),
        Err(reason) => put_refusal(rt, reason),
    }
}

// How much was written to a table or why nothing was, and the whole table that it was written to.
fn put_filled<T: Display + Copy>(
    rt: &impl Print,
    filled: Result<T, Reason>,
    table: &[i32],
) -> io::Result<()> {
    match filled {
        Ok(count) => print!(rt; " {count}")?,
        Err(reason) => put_refusal(rt, reason)?,
    }
    print!(rt; ":")?;
    put_numbers(rt, table)
}

// What is asked of an element: the steps of a run, the parameters of points, the tolerance of a polyline.
#[derive(Clone, Copy)]
struct Asked {
    steps: u32,
    s: i32,
    t: i32,
    tolerance: i32,
}

// The run and the polyline fill their table from entry 2 on.
fn sample(rt: &impl Print, used: Used, t: &Tables, element: u32, asked: Asked) -> io::Result<()> {
    print!(rt; " | curve")?;
    put_point(rt, sampler::point_on_curve(used, t, element, asked.s))?;
    print!(rt; " | cubic")?;
    put_point(rt, point_cubics::cubic_at(used, t, element, 0, asked.steps))?;
    print!(rt; " | surface")?;
    put_point(
        rt,
        sampler::point_on_surface(used, t, element, asked.s, asked.t),
    )?;
    print!(rt; " | run")?;
    let mut points = [7i32; 64];
    let ran = sampler::run_on_curve(used, t, element, asked.steps, &mut points, 2);
    put_filled(rt, ran, &points)?;
    print!(rt; " | polyline")?;
    let mut corners = [7i32; 64];
    let cut = polyline::polyline(used, t, element, asked.tolerance, &mut corners, 2);
    put_filled(rt, cut, &corners)
}

// Three numbers of element, one after the other.
fn sample_elements(
    rt: &impl Print,
    used: Used,
    t: &Tables,
    steps: u32,
    first: usize,
) -> io::Result<()> {
    if t.vn.len() < 3 {
        return Ok(());
    }
    let asked = Asked {
        steps,
        s: t.vn[0],
        t: t.vn[1],
        tolerance: t.vn[2],
    };
    let from = first.min(1000) as u32;
    for element in from..from + 3 {
        sample(rt, used, t, element, asked)?;
    }
    println!(rt)
}

fn with_tables(rt: &impl Print, text: &[u8], steps: u32, first: usize) -> io::Result<()> {
    let mut v = [0i32; 16384];
    let mut vt = [0i32; 16384];
    let mut vn = [0i32; 16384];
    let mut vp = [0i32; 16384];
    let mut corners = [0u32; 16384];
    let mut elements = [0u32; 16384];
    let mut bodies = [0u32; 16384];
    let mut ranges = [0i32; 16384];
    let mut parameters = [0i32; 16384];
    let mut loops = [0u32; 16384];
    let mut spans = [0i32; 16384];
    let mut lent = TablesMut {
        v: &mut v,
        vt: &mut vt,
        vn: &mut vn,
        vp: &mut vp,
        corners: &mut corners,
        elements: &mut elements,
        bodies: &mut bodies,
        ranges: &mut ranges,
        parameters: &mut parameters,
        loops: &mut loops,
        spans: &mut spans,
    };
    match reader::read(text, &mut lent) {
        Ok(used) => sample_elements(rt, used, &lent.shared(), steps, first),
        Err(refusal) => put_refusal(rt, refusal.reason),
    }
}

// The case at `at`; the place after its text.
fn sample_case(rt: &impl Print, cases: &[u8], at: usize) -> io::Result<usize>
    requires { at ≤ length cases.now }
    ensures { IfOk result (λ next. next ≤ length cases.now) }
{
    let count = number_at(cases, at);
    let steps = number_at(cases, count.next);
    let first = number_at(cases, steps.next);
    let label = first.next;
    let end = line_end(cases, label);
    rt.write_all(&cases[label..end])?;
    let from = (end + 1).min(cases.len());
    let to = from + count.value.min(cases.len() - from);
    with_tables(
        rt,
        &cases[from..to],
        steps.value.min(65537) as u32,
        first.value,
    )?;
    Ok(to)
}

fn sample_cases(rt: &impl Print, cases: &[u8]) -> io::Result<()> {
    let mut at: usize = 0;
    while at < cases.len() {
        let next = sample_case(rt, cases, at)?;
        if next <= at {
            return Ok(());
        }
        at = next;
    }
    Ok(())
}

fn read_input(rt: &HostRuntime, input: &mut [u8]) -> Result<(), Failure> {
    let n = streams::read_input(&mut rt.stdin(), input)?;
    sample_cases(rt, &input[..n]).map_err(Failure::Output)
}

fn main(rt: HostRuntime) -> ExitCode {
    let mut input = [0u8; 524288];
    let ran = read_input(&rt, &mut input);
    streams::ended(&rt, ran)
}
