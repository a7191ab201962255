// Runs `between` at its edges: halves of both signs, both ends, the widest numbers and parts. Each line is a, b, p, D and the answer.
#![tactic(auto)]

ghost use Rattle.std.specs.Prelude.{◌≤◌, ◌<◌};
ghost use Rattle.rounding.specs.Range.{InRange};

use std::io;

fn show(rt: &impl Print, z: i32) -> io::Result<()>
    requires { InRange z }
{
    if z < 0 {
        print!(rt; "-")?;
    }
    print!(rt; "{}", rounding::distance(0, z))
}

fn case(rt: &impl Print, a: i32, b: i32, p: u64, d: u64) -> io::Result<()>
    requires { InRange a × InRange b × (p ≤ d) × (0 < d) × (d ≤ 4000000000) }
{
    show(rt, a)?;
    print!(rt; " ")?;
    show(rt, b)?;
    print!(rt; " {p} {d} is ")?;
    show(rt, rounding::between(a, b, p, d))?;
    println!(rt)
}

fn halves(rt: &impl Print) -> io::Result<()> {
    case(rt, 0, 1, 1, 2)?;
    case(rt, 1, 0, 1, 2)?;
    case(rt, 0, -1, 1, 2)?;
    case(rt, -1, 0, 1, 2)?;
    case(rt, 1, 2, 1, 2)?;
    case(rt, -1, -2, 1, 2)?;
    case(rt, -3, 2, 1, 2)?;
    case(rt, -1, 1, 1, 2)
}

fn thirds(rt: &impl Print) -> io::Result<()> {
    case(rt, 0, 1, 1, 3)?;
    case(rt, 0, 1, 2, 3)?;
    case(rt, 0, -1, 1, 3)?;
    case(rt, 0, -1, 2, 3)
}

fn ends(rt: &impl Print) -> io::Result<()> {
    case(rt, 7, 9, 0, 5)?;
    case(rt, 7, 9, 5, 5)?;
    case(rt, -2000000000, 2000000000, 0, 4000000000)?;
    case(rt, -2000000000, 2000000000, 4000000000, 4000000000)
}

fn widest(rt: &impl Print) -> io::Result<()> {
    case(rt, -2000000000, 2000000000, 1, 4000000000)?;
    case(rt, -2000000000, 2000000000, 2000000000, 4000000000)?;
    case(rt, 2000000000, 2000000000, 1, 4000000000)?;
    case(rt, -2000000000, -2000000000, 3999999999, 4000000000)?;
    case(rt, 2000000000, 1999999999, 2000000000, 4000000000)?;
    case(rt, -2000000000, -1999999999, 2000000000, 4000000000)?;
    case(rt, 0, 1, 1999999999, 4000000000)?;
    case(rt, 0, 1, 2000000000, 4000000000)?;
    case(rt, 0, -1, 1999999999, 4000000000)?;
    case(rt, 0, -1, 2000000000, 4000000000)
}

fn main(rt: HostRuntime) -> io::Result<()> {
    halves(&rt)?;
    thirds(&rt)?;
    ends(&rt)?;
    widest(&rt)
}
