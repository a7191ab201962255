// Texts, and what reading each comes to in tables of 16,384 entries. A case is a line and then the text: the text's length, and what the case shows, which is
// written again before the answer.
#![tactic(auto)]

ghost use Rattle.std.specs.Prelude.{◌≤◌, ◌<◌, IfOk, length};

use case_files::{line_end, number_at};
use refusals::Refusal;
use std::io;
use std::process::ExitCode;
use streams::Failure;
use tables::{TablesMut, Used};

// A table's number as one that is not below zero.
trait Unsigned {
    fn unsigned(self) -> u64;
}

impl Unsigned for u32 {
    fn unsigned(self) -> u64 {
        u64::from(self)
    }
}

// Twice its magnitude, and one more below zero.
impl Unsigned for i32 {
    fn unsigned(self) -> u64 {
        2 * u64::from(self.unsigned_abs()) + u64::from(self < 0)
    }
}

fn added(sum: u64, n: u64) -> u64
    ensures { result < 1000000007 }
{
    (sum % 1_000_000_007 * 31 + n % 1_000_000_007) % 1_000_000_007
}

// A table's numbers in one: 0 where all are 0.
fn sum<T: Unsigned + Copy>(table: &[T]) -> u64 {
    let mut sum: u64 = 0;
    for n in table {
        sum = added(sum, n.unsigned());
    }
    sum
}

fn put_reading(rt: &impl Print, reading: Result<Used, Refusal>) -> io::Result<()> {
    match reading {
        Ok(
            Used {
                v,
                vt,
                vn,
                vp,
                corners,
                elements,
                bodies,
                parameters,
                loops,
            },
        ) => print!(rt;
            "read {v} {vt} {vn} {vp} {corners} {elements} {bodies} {parameters} {loops}"
        ),
        Err(refusal) => {
            let number = refusal.reason.number();
            let place = refusal.place;
            print!(rt; "refused {number} at {place}")
        }
    }
}

fn put_sum<T: Unsigned + Copy>(rt: &impl Print, table: &[T]) -> io::Result<()> {
    let sum = sum(table);
    print!(rt; " {sum}")
}

fn read_into(rt: &impl Print, text: &[u8], t: &mut TablesMut) -> io::Result<()> {
    put_reading(rt, reader::read(text, t))?;
    print!(rt; " |")?;
    put_sum(rt, t.v)?;
    put_sum(rt, t.vt)?;
    put_sum(rt, t.vn)?;
    put_sum(rt, t.vp)?;
    put_sum(rt, t.corners)?;
    put_sum(rt, t.elements)?;
    put_sum(rt, t.bodies)?;
    put_sum(rt, t.ranges)?;
    put_sum(rt, t.parameters)?;
    put_sum(rt, t.loops)?;
    put_sum(rt, t.spans)?;
    println!(rt)
}

// The tables hold sevens before a text is read into them.
fn with_tables(rt: &impl Print, text: &[u8]) -> io::Result<()> {
    let mut v = [7i32; 16384];
    let mut vt = [7i32; 16384];
    let mut vn = [7i32; 16384];
    let mut vp = [7i32; 16384];
    let mut corners = [7u32; 16384];
    let mut elements = [7u32; 16384];
    let mut bodies = [7u32; 16384];
    let mut ranges = [7i32; 16384];
    let mut parameters = [7i32; 16384];
    let mut loops = [7u32; 16384];
    let mut spans = [7i32; 16384];
    let mut lent = TablesMut {
        v: &mut v,
        vt: &mut vt,
        vn: &mut vn,
        vp: &mut vp,
        corners: &mut corners,
        elements: &mut elements,
        bodies: &mut bodies,
        ranges: &mut ranges,
        parameters: &mut parameters,
        loops: &mut loops,
        spans: &mut spans,
    };
    read_into(rt, text, &mut lent)
}

// The case at `at`; the place after its text.
fn read_case(rt: &impl Print, cases: &[u8], at: usize) -> io::Result<usize>
    requires { at ≤ length cases.now }
    ensures { IfOk result (λ next. next ≤ length cases.now) }
{
    let count = number_at(cases, at);
    let label = count.next;
    let end = line_end(cases, label);
    rt.write_all(&cases[label..end])?;
    print!(rt; " | ")?;
    let from = (end + 1).min(cases.len());
    let to = from + count.value.min(cases.len() - from);
    with_tables(rt, &cases[from..to])?;
    Ok(to)
}

fn read_cases(rt: &impl Print, cases: &[u8]) -> io::Result<()> {
    let mut at: usize = 0;
    while at < cases.len() {
        let next = read_case(rt, cases, at)?;
        if next <= at {
            return Ok(());
        }
        at = next;
    }
    Ok(())
}

fn read_input(rt: &HostRuntime, input: &mut [u8]) -> Result<(), Failure> {
    let n = streams::read_input(&mut rt.stdin(), input)?;
    read_cases(rt, &input[..n]).map_err(Failure::Output)
}

fn main(rt: HostRuntime) -> ExitCode {
    let mut input = [0u8; 524288];
    let ran = read_input(&rt, &mut input);
    streams::ended(&rt, ran)
}
