// Elements: the corners of a line into a table, the lines of p, l and f, and below them those of curv, curv2 and surf.
#![tactic(auto)]

pub mod body;

ghost use Rattle.std.specs.Prelude.{◌≡◌, cond, ◌+◌, ◌*◌, ◌≤◌, ◌<◌, leb, length, drop};
ghost use Rattle.std.proofs.lemmas.List.Edits.{sets};
ghost use Rattle.text.specs.Words.{word_of};
ghost use Rattle.text.specs.Rest.{end_of};
ghost use Rattle.digits.specs.Answers.{said, ends_at};
ghost use Rattle.references.specs.Reference.{reference_of};
ghost use Rattle.model.specs.Parse.{on_said};
ghost use Rattle.model.specs.Layout.{shape_number};
ghost use Rattle.read_elements.specs.Corners.{control, corner_said, pattern_of, follows, CornersIs};
ghost use Rattle.tables.specs.Rows.{element_numbers};
ghost use Rattle.read_elements.specs.Elements.{rule_of, stored_element, ElementIs};

use read_state::Names;
use references::corner::quick_corner_at;
use references::reference::reference_at;
use refusals::Reason;
use statements::Shape;
use statements::rules::{Parts, corner_parts, fewest_corners};
use tables::{Corner, CornerRun, Element, Used, kinds, widths};
use text::{AfterBlanks, Parsed};

// What a line's corner words are: corners of v and the parts allowed besides it, or numbers of parameter vertices.
#[derive(Clone, Copy)]
pub enum CornerForm {
    Vertex(Parts),
    Parameter,
}

fn control_at(text: &[u8], at: usize, count: u32) -> Result<Parsed<Corner>, Reason>
    requires { at ≤ length text.now }
    ensures { said result ≡ ends_at (on_said control (reference_of count (word_of (drop at text.now)))) (end_of text.now at) }
{
    let control = reference_at(text, at, count)?;
    Ok(Parsed {
        value: Corner {
            v: control.value,
            vt: 0,
            vn: 0,
        },
        next: control.next,
    })
}

// The corner that the word at `at` is, by how many there are so far of what it may refer to.
fn corner_from(
    text: &[u8],
    at: usize,
    form: CornerForm,
    used: Used,
) -> Result<Parsed<Corner>, Reason>
    requires { at ≤ length text.now }
    ensures { said result ≡ ends_at (corner_said used form (word_of (drop at text.now))) (end_of text.now at) }
{
    match form {
        CornerForm::Vertex(parts) => {
            let counts = Corner {
                v: used.v,
                vt: used.vt,
                vn: used.vn,
            };
            quick_corner_at(text, at, counts, parts)
        }
        CornerForm::Parameter => control_at(text, at, used.vp),
    }
}

// Which parts a corner has besides v.
fn pattern_of(corner: Corner) -> Parts
    ensures { result ≡ pattern_of corner }
{
    Parts {
        vt: corner.vt != 0,
        vn: corner.vn != 0,
    }
}

// Whether a corner of pattern `here` may stand after one of pattern `before`, which is None for the first of a line.
fn may_follow(before: Option<Parts>, here: Parts) -> bool
    ensures { result ≡ follows before here }
{
    match before {
        None => true,
        Some(parts) => parts.vt == here.vt && parts.vn == here.vn,
    }
}

// The corners of the line from `at` on, which is between words, all of one pattern, stored from entry `first` on: how many. None where the line has a word
// that is no corner, a byte that is not allowed, corners of two patterns, or more of them than the table has room for.
pub fn corners_into(
    text: &[u8],
    at: usize,
    form: CornerForm,
    used: Used,
    corners: &mut [u32],
    first: usize,
) -> Option<Parsed<usize>>
    requires { at ≤ length text.now }
    ensures { CornersIs (corner_said used form) text.now at first corners.old corners.new result }
{
    let mut i = at;
    let mut n = first;
    let mut count: usize = 0;
    let mut pattern = None;
    // No range counts the places: each word ends where it is read to.
    loop {
        match text::skip_blanks(text, i) {
            AfterBlanks::Bad(_) => return None,
            AfterBlanks::End(next) => return Some(Parsed { value: count, next }),
            AfterBlanks::Start(p) => {
                let corner = corner_from(text, p, form, used).ok()?;
                let here = pattern_of(corner.value);
                if !may_follow(pattern, here) {
                    return None;
                }
                let row = tables::corner_row(corner.value);
                if !table_store::put(corners, n, &row) {
                    return None;
                }
                pattern = Some(here);
                n += widths::CORNER;
                count += 1;
                i = corner.next;
            }
        }
    }
}

// What a statement asks of its element: the number of its kind, the fewest corners, and what they are.
#[derive(Clone, Copy)]
pub struct Rule {
    pub kind: u32,
    pub fewest: usize,
    pub form: CornerForm,
}

fn shape_number(shape: Shape) -> u32
    ensures { result ≡ shape_number shape }
{
    match shape {
        Shape::Point => kinds::POINT,
        Shape::Line => kinds::LINE,
        Shape::Face => kinds::FACE,
    }
}

fn rule_of(shape: Shape) -> Rule
    ensures { result ≡ rule_of shape }
{
    Rule {
        kind: shape_number(shape),
        fewest: fewest_corners(shape),
        form: CornerForm::Vertex(corner_parts(shape)),
    }
}

fn stored_element(kind: u32, first: u32, count: u32, body: u32, names: Names) -> Element
    ensures { result ≡ stored_element kind first count body names }
{
    Element {
        kind,
        corners: CornerRun { first, count },
        body,
        smoothing: names.smoothing,
        group: names.group,
        material: names.material,
    }
}

fn put_element(elements: &mut [u32], used: u32, element: Element) -> bool
    ensures value { result ≡ leb (9 * used + 9) (length elements.old) }
    ensures elements_after { elements.new ≡ cond result (sets elements.old (9 * used) (element_numbers element)) elements.old }
{
    let row = tables::element_row(element);
    table_store::put(elements, widths::ELEMENT * (used as usize), &row)
}

// The corners of the line from `at` on and the element's record, with the number of its body: how many corners.
pub fn take_corners(
    text: &[u8],
    at: usize,
    rule: Rule,
    body: u32,
    used: Used,
    names: Names,
    corners: &mut [u32],
    elements: &mut [u32],
) -> Option<Parsed<u32>>
    requires { (at ≤ length text.now) × (length text.now ≤ 16777216) }
    ensures { ElementIs rule body used names text.now at corners.old corners.new elements.old elements.new result }
{
    let found = corners_into(text, at, rule.form, used, corners, used.corners as usize)?;
    if found.value < rule.fewest {
        return None;
    }
    let count = found.value as u32;
    let element = stored_element(rule.kind, used.corners, count, body, names);
    if !put_element(elements, used.elements, element) {
        return None;
    }
    Some(Parsed {
        value: count,
        next: found.next,
    })
}

// A p, l or f line, `at` just after its keyword.
pub fn take_element(
    text: &[u8],
    at: usize,
    shape: Shape,
    used: Used,
    names: Names,
    corners: &mut [u32],
    elements: &mut [u32],
) -> Option<Parsed<u32>>
    requires { (at ≤ length text.now) × (length text.now ≤ 16777216) }
    ensures { ElementIs (rule_of shape) 0 used names text.now at corners.old corners.new elements.old elements.new result }
{
    take_corners(text, at, rule_of(shape), 0, used, names, corners, elements)
}
