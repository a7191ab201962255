// cstype, deg, g, s and usemtl: lines that set what is in force.
#![tactic(auto)]

pub mod words; // the words of such a line

ghost use Rattle.std.specs.Prelude.{◌≡◌, ◌≤◌, length};
ghost use Rattle.text.specs.Rest.{rest_at};
ghost use Rattle.digits.specs.Answers.{said, ends_at};
ghost use Rattle.read_settings.specs.Steps.{basis_or, is_rational, typed, type_taken, second_said, second_end, degree_taken, smoothing_taken, material_taken, group_taken};
ghost use Rattle.model.specs.Parse.{type_said};

use crate::words::{counted_line, counted_names};
use digits::whole::{degree_at, smoothing_at};
use keywords::{Argument, argument_at};
use read_state::{Form, Names};
use refusals::Reason;
use statements::rows::{degree_rules, group_rules, material_rules, smoothing_rules, type_rules};
use tables::bases;
use text::Parsed;

// The number of a type. None for what is none.
fn basis_of(argument: Argument) -> Option<u32>
    ensures { result ≡ basis_or (type_said argument) }
{
    match argument {
        Argument::Bezier => Some(bases::BEZIER),
        Argument::Bspline => Some(bases::BSPLINE),
        Argument::Cardinal => Some(bases::CARDINAL),
        Argument::Taylor => Some(bases::TAYLOR),
        _ => None,
    }
}

fn is_rational(argument: Argument) -> bool
    ensures { result ≡ is_rational argument }
{
    matches!(argument, Argument::Rational)
}

// The form with the type that the line's last word says.
fn with_type(argument: Argument, rational: u32, form: Form, next: usize) -> Option<Parsed<Form>>
    ensures { result ≡ typed rational form (basis_or (type_said argument)) next }
{
    let basis = basis_of(argument)?;
    Some(Parsed {
        value: Form {
            basis,
            rational,
            degree_u: form.degree_u,
            degree_v: form.degree_v,
        },
        next,
    })
}

// A cstype line, `at` just after its keyword; 01: "of two the first is rat; the last is a type".
pub fn take_type(text: &[u8], at: usize, form: Form) -> Option<Parsed<Form>>
    requires { at ≤ length text.now }
    ensures { result ≡ type_taken form (rest_at text.now at) }
{
    let rules = type_rules();
    let line = counted_line(text, at, rules.count)?;
    let argument = argument_at(text, line.first);
    if line.count == 1 {
        return with_type(argument, 0, form, line.next);
    }
    if !is_rational(argument) {
        return None;
    }
    with_type(argument_at(text, line.second), 1, form, line.next)
}

// The v degree of a line of `count` words, the second at `place`; 01: "A deg with one number clears the v degree".
fn second_degree(text: &[u8], place: usize, count: usize) -> Result<Parsed<u32>, Reason>
    requires { place ≤ length text.now }
    ensures { said result ≡ ends_at (second_said text.now place count) (second_end text.now place count) }
{
    if count == 1 {
        return Ok(Parsed {
            value: 0,
            next: place,
        });
    }
    degree_at(text, place)
}

// A deg line, `at` just after its keyword.
pub fn take_degree(text: &[u8], at: usize, form: Form) -> Option<Parsed<Form>>
    requires { at ≤ length text.now }
    ensures { result ≡ degree_taken form (rest_at text.now at) }
{
    let rules = degree_rules();
    let line = counted_line(text, at, rules.count)?;
    let degree_u = degree_at(text, line.first).ok()?;
    let degree_v = second_degree(text, line.second, line.count).ok()?;
    Some(Parsed {
        value: Form {
            basis: form.basis,
            rational: form.rational,
            degree_u: degree_u.value,
            degree_v: degree_v.value,
        },
        next: line.next,
    })
}

// An s line, `at` just after its keyword.
pub fn take_smoothing(text: &[u8], at: usize, names: Names) -> Option<Parsed<Names>>
    requires { at ≤ length text.now }
    ensures { result ≡ smoothing_taken names (rest_at text.now at) }
{
    let rules = smoothing_rules();
    let line = counted_line(text, at, rules.count)?;
    let smoothing = smoothing_at(text, line.first).ok()?;
    Some(Parsed {
        value: Names {
            group: names.group,
            material: names.material,
            smoothing: smoothing.value,
        },
        next: line.next,
    })
}

// A usemtl line, `at` just after its keyword.
pub fn take_material(text: &[u8], at: usize, names: Names) -> Option<Parsed<Names>>
    requires { (at ≤ length text.now) × (length text.now ≤ 16777216) }
    ensures { result ≡ material_taken names (rest_at text.now at) }
{
    let rules = material_rules();
    let run = counted_names(text, at, rules.count)?;
    Some(Parsed {
        value: Names {
            group: names.group,
            material: run.value,
            smoothing: names.smoothing,
        },
        next: run.next,
    })
}

// A g line, `at` just after its keyword.
pub fn take_group(text: &[u8], at: usize, names: Names) -> Option<Parsed<Names>>
    requires { (at ≤ length text.now) × (length text.now ≤ 16777216) }
    ensures { result ≡ group_taken names (rest_at text.now at) }
{
    let rules = group_rules();
    let run = counted_names(text, at, rules.count)?;
    Some(Parsed {
        value: Names {
            group: run.value,
            material: names.material,
            smoothing: names.smoothing,
        },
        next: run.next,
    })
}
