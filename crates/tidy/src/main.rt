// The tidy text of an .obj file, from standard input to standard output, or its refusal. What is printed is `tidy_output`'s.
#![tactic(auto)]

use std::io::{Read, Write};
use std::process::ExitCode;
use streams::Failure;
use tables::TablesMut;

fn put_front(output: &mut impl Write, out: &[u8], count: usize) -> Result<(), Failure> {
    if count <= out.len() {
        streams::write_output(output, &out[..count])?;
    }
    Ok(())
}

fn tidy_text(output: &mut impl Write, text: &[u8]) -> Result<(), Failure> {
    let mut v = [0i32; 16384];
    let mut vt = [0i32; 16384];
    let mut vn = [0i32; 16384];
    let mut vp = [0i32; 16384];
    let mut corners = [0u32; 16384];
    let mut elements = [0u32; 16384];
    let mut bodies = [0u32; 16384];
    let mut ranges = [0i32; 16384];
    let mut parameters = [0i32; 16384];
    let mut loops = [0u32; 16384];
    let mut spans = [0i32; 16384];
    let mut lent = TablesMut {
        v: &mut v,
        vt: &mut vt,
        vn: &mut vn,
        vp: &mut vp,
        corners: &mut corners,
        elements: &mut elements,
        bodies: &mut bodies,
        ranges: &mut ranges,
        parameters: &mut parameters,
        loops: &mut loops,
        spans: &mut spans,
    };
    let mut out = [0u8; 65536];
    let count = tidy_output::tidy_output(text, &mut lent, &mut out);
    put_front(output, &out, count)
}

// The room is one byte more than is taken, to see that a text is longer. Nothing is printed where the input could not be read.
fn tidy_input(
    input: &mut impl Read,
    output: &mut impl Write,
    text: &mut [u8],
) -> Result<(), Failure> {
    let count = streams::read_input(input, text)?;
    tidy_text(output, &text[..count])
}

fn main(rt: HostRuntime) -> ExitCode {
    let mut text = [0u8; 65537];
    let ran = tidy_input(&mut rt.stdin(), &mut rt.stdout(), &mut text);
    streams::ended(&rt, ran)
}
