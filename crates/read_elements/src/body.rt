// The lines of curv, curv2 and surf. The record of their body is stored at its end.
ghost use Rattle.std.specs.Prelude.{◌≡◌, ◌&&◌, ◌+◌, ◌*◌, ◌≤◌, leb, length, drop};
ghost use Rattle.read_elements.specs.Bodies.{corner_form, rule_for, form_in_force, wide_at, wides, wides_for, ControlsAre, BodyIs};

use crate::{CornerForm, Rule, take_corners};
use read_state::{Form, Names, kind_of};
use read_vertices::{Numbers, numbers_into};
use statements::Free;
use statements::rules::{WordForm, control_form, fewest_controls, range_words};
use tables::vertices::given_at;
use tables::{Used, widths};
use text::Parsed;

// A control's form in the row of its statement, as the loop over corners takes it: a corner with the parts allowed, or a vp number.
fn corner_form(form: WordForm) -> CornerForm
    ensures { result ≡ corner_form form }
{
    match form {
        WordForm::Corner(parts) => CornerForm::Vertex(parts),
        _ => CornerForm::Parameter,
    }
}

fn rule_for(free: Free) -> Rule
    ensures { result ≡ rule_for free }
{
    Rule {
        kind: kind_of(free),
        fewest: fewest_controls(free),
        form: corner_form(control_form(free)),
    }
}

// Whether a type and the degrees that it needs are set.
fn in_force(free: Free, form: Form) -> bool
    ensures { result ≡ form_in_force free form }
{
    read_state::in_force(matches!(free, Free::Surface), form)
}

// Whether the parameter vertex of that number has at least two coordinates given. `two_given` of read_word_checks stays beside it: the definitions of the two,
// which may not change, differ for a count below 0, of which that one takes the magnitude.
fn is_wide(vp: &[i32], number: u32) -> bool
    ensures { result ≡ wide_at vp.now number }
{
    number != 0 && given_at(vp, number - 1) >= 2
}

fn all_wide(vp: &[i32], corners: &[u32], first: usize, count: u32) -> bool
    requires { first + 3 * count ≤ length corners.now }
    ensures { result ≡ wides vp.now count (drop first corners.now) }
{
    for k in 0..count as usize {
        if !is_wide(vp, corners[first + widths::CORNER * k]) {
            return false;
        }
    }
    true
}

fn all_wide_for(free: Free, vp: &[i32], corners: &[u32], first: usize, count: u32) -> bool
    requires { first + 3 * count ≤ length corners.now }
    ensures { result ≡ wides_for free vp.now count (drop first corners.now) }
{
    match free {
        Free::Curve2 => all_wide(vp, corners, first, count),
        Free::Curve | Free::Surface => true,
    }
}

// The controls of the line from `at` on, after the range: how many.
fn take_controls(
    text: &[u8],
    at: usize,
    free: Free,
    used: Used,
    names: Names,
    vp: &[i32],
    corners: &mut [u32],
    elements: &mut [u32],
) -> Option<Parsed<u32>>
    requires { (at ≤ length text.now) × (length text.now ≤ 16777216) × (used.bodies ≤ 16777216) }
    ensures { ControlsAre free used names vp.now text.now at corners.old corners.new elements.old elements.new result }
{
    let body = used.bodies + 1;
    let controls = take_corners(
        text,
        at,
        rule_for(free),
        body,
        used,
        names,
        corners,
        elements,
    )?;
    if !all_wide_for(free, vp, corners, used.corners as usize, controls.value) {
        return None;
    }
    Some(controls)
}

// Whether the bodies' and the ranges' tables have room for one record more.
fn body_room(used: u32, bodies: usize, ranges: usize) -> bool
    ensures { result ≡ (leb (9 * used + 9) bodies && leb (4 * used + 4) ranges) }
{
    let n = used as usize;
    widths::BODY * n + widths::BODY <= bodies && widths::RANGE * n + widths::RANGE <= ranges
}

// A curv, curv2 or surf line, `at` just after its keyword; `bodies` is the length of the bodies' table: how many controls.
pub fn take_body_line(
    text: &[u8],
    at: usize,
    free: Free,
    used: Used,
    names: Names,
    form: Form,
    vp: &[i32],
    corners: &mut [u32],
    elements: &mut [u32],
    bodies: usize,
    ranges: &mut [i32],
) -> Option<Parsed<u32>>
    requires { (at ≤ length text.now) × (length text.now ≤ 16777216) × (used.bodies ≤ 16777216) }
    ensures { BodyIs free used names form vp.now text.now at corners.old corners.new elements.old elements.new bodies ranges.old ranges.new result }
{
    if !in_force(free, form) {
        return None;
    }
    if !body_room(used.bodies, bodies, ranges.len()) {
        return None;
    }
    let first = widths::RANGE * (used.bodies as usize);
    match numbers_into(text, at, range_words(free), ranges, first)? {
        Numbers::Full { end } => {
            take_controls(text, end, free, used, names, vp, corners, elements)
        }
        Numbers::Ended { .. } => None,
    }
}
