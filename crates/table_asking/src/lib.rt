// Asking for a record by its number, or at an index: zeros where there is none.
#![tactic(auto, unfolding(tables::specs::Asking::held, tables::specs::Asking::asked_element, tables::specs::Asking::body_held, tables::specs::Asking::asked_body, tables::specs::Asking::corner_with, tables::specs::Asking::asked_corner, tables::specs::Asking::part_of, tables::specs::Asking::asked_group, tables::specs::Asking::asked_material))]

ghost use Rattle.std.specs.Prelude.{◌≡◌, ◌+◌, ◌*◌, ◌≤◌, ◌&&◌, leb, length};
ghost use Rattle.tables.specs.Records.{body_width, range_width, element_in, body_in};
ghost use Rattle.tables.specs.Asking.{held, asked_element, body_held, asked_body, corner_with, asked_corner, part_of, asked_group, asked_material};

use tables::{Body, Corner, Element, NameRun, Used, widths};

// Whether the record of that number, counted from 1, is used and stands whole within a lent length.
fn is_held(number: u32, used: u32, width: usize, lent: usize) -> bool
    requires { width ≤ 4294967295 }
    ensures { result ≡ held number used width lent }
{
    1 <= number && number <= used && width * (number as usize) <= lent
}

// The element at that index, counted from 0; a number past the table's end is 0.
pub fn element_in(elements: &[u32], index: u32) -> Element
    ensures { result ≡ element_in elements.now index }
{
    if tables::element_fits(elements, index) {
        return tables::lent_element(elements, index);
    }
    let mut row = [0; widths::ELEMENT];
    tables::entries_from(elements, widths::ELEMENT * index as usize, 0, &mut row);
    tables::lent_element(&row, 0)
}

// The element of that number, counted from 1; all zeros for no such element.
pub fn element_of(used: Used, elements: &[u32], element: u32) -> Element
    ensures { result ≡ asked_element used elements.now element }
{
    if is_held(element, used.elements, widths::ELEMENT, elements.len()) {
        return tables::lent_element(elements, element - 1);
    }
    tables::lent_element(&[0; widths::ELEMENT], 0)
}

// Whether the body at that index, counted from 0, and its range stand whole within the lent entries.
fn body_fits(bodies: &[u32], ranges: &[i32], index: u32) -> bool
    ensures { result ≡ (leb (body_width * index + body_width) (length bodies.now) && leb (range_width * index + range_width) (length ranges.now)) }
{
    widths::BODY * index as usize + widths::BODY <= bodies.len()
        && widths::RANGE * index as usize + widths::RANGE <= ranges.len()
}

// The body at that index, counted from 0, with its range; a number past a table's end is 0.
pub fn body_in(bodies: &[u32], ranges: &[i32], index: u32) -> Body
    ensures { result ≡ body_in bodies.now ranges.now index }
{
    if body_fits(bodies, ranges, index) {
        return tables::lent_body(bodies, ranges, index);
    }
    let mut row = [0; widths::BODY];
    tables::entries_from(bodies, widths::BODY * index as usize, 0, &mut row);
    let mut range = [0; widths::RANGE];
    tables::entries_from(ranges, widths::RANGE * index as usize, 0, &mut range);
    tables::lent_body(&row, &range, 0)
}

// Whether the body of that number, counted from 1, is used and stands whole within the lent entries, its range too.
pub fn has_body(used: Used, bodies: &[u32], ranges: &[i32], body: u32) -> bool
    ensures { result ≡ body_held used bodies.now ranges.now body }
{
    is_held(body, used.bodies, widths::BODY, bodies.len())
        && widths::RANGE * body as usize <= ranges.len()
}

// The body of that number, counted from 1; all zeros for no such body.
pub fn body_of(used: Used, bodies: &[u32], ranges: &[i32], body: u32) -> Body
    ensures { result ≡ asked_body used bodies.now ranges.now body }
{
    if has_body(used, bodies, ranges, body) {
        return tables::lent_body(bodies, ranges, body - 1);
    }
    tables::lent_body(&[0; widths::BODY], &[0; widths::RANGE], 0)
}

// Corner `k` of an element, counted from 0.
pub fn corner_with(used: Used, corners: &[u32], element: Element, k: u32) -> Corner
    ensures { result ≡ corner_with used corners.now element k }
{
    let none = tables::lent_corner_from(&[0; widths::CORNER], 0, 0);
    let run = element.corners;
    if run.count <= k {
        return none;
    }
    let end = tables::corner_place(run, k as usize) + widths::CORNER;
    if (used.corners as usize) < end || corners.len() < end {
        return none;
    }
    tables::corner_at(corners, run, k as usize)
}

// Corner `k`, counted from 0, of the element of that number, counted from 1; three zeros for no such corner.
pub fn corner_of(used: Used, elements: &[u32], corners: &[u32], element: u32, k: u32) -> Corner
    ensures { result ≡ asked_corner used elements.now corners.now element k }
{
    let e = element_of(used, elements, element);
    corner_with(used, corners, e, k)
}

// The part of the text that a run of names takes up; empty where it passes the text's end.
pub fn part_of(text: &[u8], run: NameRun) -> &[u8]
    ensures { result.now ≡ part_of text.now run }
{
    let from = run.place as usize;
    let to = from + run.length as usize;
    text.get(from..to).unwrap_or(&[])
}

// The run of group names of the element of that number, counted from 1, as it stands in the caller's text.
pub fn group_of<'a, 'b>(text: &'a [u8], used: Used, elements: &'b [u32], element: u32) -> &'a [u8]
    ensures { result.now ≡ asked_group text.now used elements.now element }
{
    let e = element_of(used, elements, element);
    part_of(text, e.group)
}

// The same of its material's name.
pub fn material_of<'a, 'b>(
    text: &'a [u8],
    used: Used,
    elements: &'b [u32],
    element: u32,
) -> &'a [u8]
    ensures { result.now ≡ asked_material text.now used elements.now element }
{
    let e = element_of(used, elements, element);
    part_of(text, e.material)
}
