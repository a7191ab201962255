// The points of a run on a curve of an .obj file: the element's number and the steps are the arguments, the file is standard input.
#![tactic(auto)]

use refusals::{Reason, Refusal};
use std::io::{Read, Write};
use std::process::ExitCode;
use std::rt::Env;
use streams::Failure;
use tables::{Tables, TablesMut, Used};

// Each of these writes it all or fails; where one failed, nothing more is written.
// A number of millionths with six places, by way of the bytes lent.
fn put_written(out: &mut impl Write, bytes: &mut [u8], value: i32) -> Result<(), Failure> {
    let n = word_format::number_length(value);
    if n <= bytes.len() {
        word_format::write_number(bytes, 0, value);
        streams::write_output(out, &bytes[..n])?;
    }
    Ok(())
}

fn put_number(out: &mut impl Write, value: i32, behind: &[u8]) -> Result<(), Failure> {
    let mut bytes = [0u8; 16];
    put_written(out, &mut bytes, value)?;
    streams::write_output(out, behind)
}

// Points of `axes` numbers each, a line for each point.
fn put_points(out: &mut impl Write, points: &[i32], axes: usize) -> Result<(), Failure> {
    let mut axis: usize = 1;
    for value in points {
        if axis < axes {
            put_number(out, *value, b" ")?;
            axis += 1;
        } else {
            put_number(out, *value, b"\n")?;
            axis = 1;
        }
    }
    Ok(())
}

// The whole number that an argument says, at most 4,294,967,295, if it says one.
fn whole_of(word: &[u8]) -> Option<u32> {
    let mut value: u32 = 0;
    for b in word {
        if !b.is_ascii_digit() {
            return None;
        }
        value = value
            .saturating_mul(10)
            .saturating_add(u32::from(*b - b'0'));
    }
    Some(value)
}

fn put_refusal(out: &mut impl Write, reason: Reason) -> Result<(), Failure> {
    let number = reason.number();
    writeln!(out, "refused {number}").map_err(Failure::Output)
}

fn put_refusal_at(out: &mut impl Write, refusal: Refusal) -> Result<(), Failure> {
    let number = refusal.reason.number();
    let place = refusal.place;
    writeln!(out, "refused {number} at {place}").map_err(Failure::Output)
}

// A point of a run has as many numbers as there are numbers for each of its steps + 1 points.
fn run(
    out: &mut impl Write,
    used: Used,
    t: &Tables,
    element: u32,
    steps: u32,
) -> Result<(), Failure> {
    let mut points = [0i32; 196611];
    match sampler::run_on_curve(used, t, element, steps, &mut points, 0) {
        Ok(numbers) => {
            let filled = points.get(..numbers).unwrap_or(&[]);
            put_points(out, filled, numbers / (steps as usize + 1))
        }
        Err(reason) => put_refusal(out, reason),
    }
}

fn run_on_text(out: &mut impl Write, text: &[u8], element: u32, steps: u32) -> Result<(), Failure> {
    let mut v = [0i32; 16384];
    let mut vt = [0i32; 16384];
    let mut vn = [0i32; 16384];
    let mut vp = [0i32; 16384];
    let mut corners = [0u32; 16384];
    let mut elements = [0u32; 16384];
    let mut bodies = [0u32; 16384];
    let mut ranges = [0i32; 16384];
    let mut parameters = [0i32; 16384];
    let mut loops = [0u32; 16384];
    let mut spans = [0i32; 16384];
    let mut lent = TablesMut {
        v: &mut v,
        vt: &mut vt,
        vn: &mut vn,
        vp: &mut vp,
        corners: &mut corners,
        elements: &mut elements,
        bodies: &mut bodies,
        ranges: &mut ranges,
        parameters: &mut parameters,
        loops: &mut loops,
        spans: &mut spans,
    };
    match reader::read(text, &mut lent) {
        Ok(used) => run(out, used, &lent.shared(), element, steps),
        Err(refusal) => put_refusal_at(out, refusal),
    }
}

// An argument that is not there, is longer than 4,096 bytes or says no number is 0.
fn argument(rt: &impl Env, i: usize) -> u32 {
    let mut buffer = [0u8; 4096];
    match rt.arg(i, &mut buffer) {
        Ok(n) => whole_of(&buffer[..n]).unwrap_or(0),
        Err(_) => 0,
    }
}

// The room is one byte more than is taken, to see that a text is longer. Nothing is printed where the input could not be read.
fn run_on_input(
    input: &mut impl Read,
    out: &mut impl Write,
    text: &mut [u8],
    element: u32,
    steps: u32,
) -> Result<(), Failure> {
    let count = streams::read_input(input, text)?;
    if 65536 < count {
        let too_long = Refusal {
            reason: Reason::TextTooLong,
            place: 0,
        };
        return put_refusal_at(out, too_long);
    }
    run_on_text(out, &text[..count], element, steps)
}

fn main(rt: HostRuntime) -> ExitCode {
    let mut text = [0u8; 65537];
    let element = argument(&rt, 1);
    let steps = argument(&rt, 2);
    let ran = run_on_input(&mut rt.stdin(), &mut rt.stdout(), &mut text, element, steps);
    streams::ended(&rt, ran)
}
