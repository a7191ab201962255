// A parm line: a direction, then numbers, as many as its row lets in. They are stored at the body's end.
ghost use Rattle.std.specs.Prelude.{◌≡◌, ◌≤◌, length};
ghost use Rattle.read_bodies.specs.Parm.{way_of, ParmRowIs, ParmIs};

use crate::numbers::count_numbers;
use keywords::{Argument, argument_at};
use statements::rows::parameter_rules;
use statements::rules::counted;
use text::{AfterBlanks, Parsed, skip_blanks, word_end};

// A direction, and the place where the numbers along it start.
#[derive(Clone, Copy)]
pub struct Parm {
    pub along_v: bool,
    pub numbers_at: usize,
}

// Whether a direction is v. None for what is no direction.
fn along_v(argument: Argument) -> Option<bool>
    ensures { result ≡ way_of argument }
{
    match argument {
        Argument::DirectionU => Some(false),
        Argument::DirectionV => Some(true),
        _ => None,
    }
}

// The numbers after the direction, which is a word of the line as they are.
fn take_row(text: &[u8], at: usize, along_v: bool) -> Option<Parsed<Parm>>
    requires { at ≤ length text.now }
    ensures { ParmRowIs text.now at along_v result }
{
    let numbers = count_numbers(text, at).ok()?;
    let rules = parameter_rules();
    if !counted(rules.count, numbers.value + 1) {
        return None;
    }
    Some(Parsed {
        value: Parm {
            along_v,
            numbers_at: at,
        },
        next: numbers.next,
    })
}

// A parm line of an open body, a surface's or a curve's; `at` is just after the keyword.
pub fn take_parm(text: &[u8], at: usize, surface: bool) -> Option<Parsed<Parm>>
    requires { at ≤ length text.now }
    ensures { ParmIs surface text.now at result }
{
    match skip_blanks(text, at) {
        AfterBlanks::Bad(_) => None,
        AfterBlanks::End(_) => None,
        AfterBlanks::Start(p) => {
            let v = along_v(argument_at(text, p))?;
            if v && !surface {
                return None;
            }
            take_row(text, word_end(text, p), v)
        }
    }
}
