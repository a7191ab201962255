ghost use Rattle.std.specs.Prelude.{◌≡◌, ◌&&◌, ◌≤◌, length, drop, leb, eqb, nat_abs};
ghost use Rattle.text.specs.Words.{word_of};
ghost use Rattle.text.specs.Rest.{word_at};
ghost use Rattle.references.specs.Reference.{reference_of};
ghost use Rattle.references.specs.Corner.{corner_of, agree};
ghost use Rattle.model.specs.Parse.{said_of, direction_of, direction_said, type_said, rational_said};
ghost use Rattle.read_word_checks.specs.Faults.{check_said, check_of, counts_by, seen_by, alike_said, given_by, wide_said, tested_by};

use crate::tests::Test;
use digits::name::name_at;
use digits::whole::{degree_at, smoothing_at};
use keywords::{Argument, argument_at};
use references::corner::corner_at;
use references::reference::reference_at;
use refusals::Reason;
use statements::rules::{Parts, WordForm};
use tables::Corner;
use tables::vertices::given_at;
use word_numbers::number_at;

// How many there are so far of what a word may refer to.
#[derive(Clone, Copy)]
pub struct Seen {
    pub counts: Corner, // of v, vt and vn
    pub vp: u32,
    pub curves: u32,
}

// What a word is read as is not asked here.
fn fault_of<T: Copy>(word: Result<T, Reason>) -> Result<(), Reason>
    ensures { check_said result ≡ check_said word }
{
    match word {
        Ok(_) => Ok(()),
        Err(reason) => Err(reason),
    }
}

fn direction_fault(argument: Argument) -> Result<(), Reason>
    ensures { check_said result ≡ check_of (direction_said (direction_of argument)) }
{
    match argument {
        Argument::DirectionU | Argument::DirectionV => Ok(()),
        _ => Err(Reason::Malformed),
    }
}

// 01: "the type bmatrix" is known and refused.
fn type_fault(argument: Argument) -> Result<(), Reason>
    ensures { check_said result ≡ check_of (type_said argument) }
{
    match argument {
        Argument::BasisMatrix => Err(Reason::NotTaken),
        Argument::Bezier | Argument::Bspline | Argument::Cardinal | Argument::Taylor => Ok(()),
        _ => Err(Reason::Malformed),
    }
}

fn rational_fault(argument: Argument) -> Result<(), Reason>
    ensures { check_said result ≡ check_of (rational_said argument) }
{
    match argument {
        Argument::Rational => Ok(()),
        _ => Err(Reason::Malformed),
    }
}

// Whether a corner has no vt exactly where `bare`, and no vn exactly where `flat`.
fn alike(corner: Corner, bare: bool, flat: bool) -> bool
    ensures { result ≡ (agree bare (eqb corner.vt 0) && agree flat (eqb corner.vn 0)) }
{
    bare == (corner.vt == 0) && flat == (corner.vn == 0)
}

// 9: a corner of another pattern than the first, which has no vt where `bare` and no vn where `flat`.
fn alike_fault(
    text: &[u8],
    at: usize,
    seen: Seen,
    parts: Parts,
    bare: bool,
    flat: bool,
) -> Result<(), Reason>
    requires { at ≤ length text.now }
    ensures { check_said result ≡ check_of (alike_said bare flat (corner_of (counts_by seen) parts (word_of (drop at text.now)))) }
{
    let corner = corner_at(text, at, seen.counts, parts)?;
    if alike(corner.value, bare, flat) {
        return Ok(());
    }
    Err(Reason::CornerPattern)
}

fn two_or_more(given: i32) -> bool
    ensures { result ≡ leb 2 (nat_abs given) }
{
    1 < given || given < -1
}

// `is_wide` of read_elements stays beside it: the definitions of the two, which may not change, differ for a count below 0. This one takes its magnitude.
fn two_given(vp: &[i32], k: u32) -> bool
    ensures { result ≡ given_by vp.now k }
{
    k != 0 && two_or_more(given_at(vp, k - 1))
}

// 12: a control whose vp has fewer than two coordinates given.
fn wide_fault(text: &[u8], at: usize, count: u32, vp: &[i32]) -> Result<(), Reason>
    requires { at ≤ length text.now }
    ensures { check_said result ≡ check_of (wide_said vp.now (reference_of count (word_of (drop at text.now)))) }
{
    let control = reference_at(text, at, count)?;
    if two_given(vp, control.value) {
        return Ok(());
    }
    Err(Reason::ControlCount)
}

// What is wrong with the word at `at` as one of the form.
fn form_fault(text: &[u8], at: usize, form: WordForm, seen: Seen) -> Result<(), Reason>
    requires { at ≤ length text.now }
    ensures { check_said result ≡ check_of (said_of (seen_by seen) form (word_at text.now at)) }
{
    match form {
        WordForm::Number => fault_of(number_at(text, at)),
        WordForm::Corner(parts) => fault_of(corner_at(text, at, seen.counts, parts)),
        WordForm::Control => fault_of(reference_at(text, at, seen.vp)),
        WordForm::Curve => fault_of(reference_at(text, at, seen.curves)),
        WordForm::Direction => direction_fault(argument_at(text, at)),
        WordForm::Type => type_fault(argument_at(text, at)),
        WordForm::Rational => rational_fault(argument_at(text, at)),
        WordForm::Degree => fault_of(degree_at(text, at)),
        WordForm::Smoothing => fault_of(smoothing_at(text, at)),
        WordForm::Name => fault_of(name_at(text, at)),
        WordForm::Anything => Ok(()),
    }
}

// What is wrong with the word at `at` by the test.
pub fn word_fault(text: &[u8], at: usize, test: Test, seen: Seen, vp: &[i32]) -> Result<(), Reason>
    requires { at ≤ length text.now }
    ensures { check_said result ≡ check_of (tested_by (seen_by seen) vp.now test (word_at text.now at)) }
{
    match test {
        Test::Form(form) => form_fault(text, at, form, seen),
        Test::Alike { parts, bare, flat } => alike_fault(text, at, seen, parts, bare, flat),
        Test::Wide => wide_fault(text, at, seen.vp, vp),
    }
}
