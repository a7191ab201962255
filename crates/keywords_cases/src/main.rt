// Words from standard input, each with what it is as a keyword and what it is as an argument. A stored keyword is written from the table.
#![tactic(auto)]

ghost use Rattle.std.specs.Prelude.{◌≤◌, ◌<◌, length};

use keywords::Argument;
use statements::{Carried, Statement};
use std::io;
use std::io::Read;
use text::AfterBlanks;

fn put_keyword(rt: &impl Print, statement: Carried) -> io::Result<()> {
    let mut out = [0u8; 10];
    let n = keywords::write_keyword(statement, &mut out, 0);
    print!(rt; " stored ")?;
    rt.write_all(&out[..n])
}

fn put_carried(rt: &impl Print, statement: Carried) -> io::Result<()> {
    match statement {
        Carried::PassedOver => print!(rt; " passed over"),
        _ => put_keyword(rt, statement),
    }
}

fn put_statement(rt: &impl Print, text: &[u8], at: usize) -> io::Result<()> {
    match keywords::keyword_at(text, at).statement {
        Statement::Carried(carried) => put_carried(rt, carried),
        Statement::Refused => print!(rt; " refused"),
        Statement::Unknown => print!(rt; " unknown"),
    }
}

fn put_argument(rt: &impl Print, text: &[u8], at: usize) -> io::Result<()> {
    match keywords::argument_at(text, at) {
        Argument::Other => println!(rt),
        Argument::Rational => println!(rt; ", rational"),
        Argument::BasisMatrix => println!(rt; ", basis matrix"),
        Argument::Bezier => println!(rt; ", Bezier"),
        Argument::Bspline => println!(rt; ", B-spline"),
        Argument::Cardinal => println!(rt; ", Cardinal"),
        Argument::Taylor => println!(rt; ", Taylor"),
        Argument::DirectionU => println!(rt; ", along u"),
        Argument::DirectionV => println!(rt; ", along v"),
        Argument::Off => println!(rt; ", off"),
    }
}

fn put_word(rt: &impl Print, text: &[u8], start: usize, end: usize) -> io::Result<()>
    requires { (start ≤ end) × (end ≤ length text.now) }
{
    rt.write_all(&text[start..end])?;
    print!(rt; ":")?;
    put_statement(rt, text, start)?;
    put_argument(rt, text, start)
}

fn show(rt: &impl Print, text: &[u8]) -> io::Result<()> {
    let mut i: usize = 0;
    while i < text.len() {
        match text::skip_blanks(text, i) {
            AfterBlanks::Start(p) => {
                i = text::word_end(text, p);
                put_word(rt, text, p, i)?;
            }
            AfterBlanks::End(q) => {
                i = q;
            }
            AfterBlanks::Bad(_) => {
                return Ok(());
            }
        }
    }
    Ok(())
}

fn main(rt: HostRuntime) -> io::Result<()> {
    let mut buffer = [0u8; 4096];
    let n = rt.stdin().read(&mut buffer)?;
    show(&rt, &buffer[..n])?;
    put_statement(&rt, b"", 0)?;
    put_argument(&rt, b"v", 1)?;
    put_statement(&rt, b"usemtl", 3)?;
    put_argument(&rt, b"curv2", 4)
}
