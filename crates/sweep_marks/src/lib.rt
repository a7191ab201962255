// Which records of one kind the corners name, and their new numbers.
#![tactic(auto)]

ghost use Rattle.std.specs.Prelude.{◌≡◌, ◌≤◌, length};
ghost use Rattle.sweep_marks.specs.Counting.{kept_upto, new_numbers};
ghost use Rattle.sweep_marks.specs.Marks.{kind_of, place_of, mark_number, mark_every, mark_element, mark_elements, marked_in};

use tables::{CORNER_V, CORNER_VN, CORNER_VT, CornerRun, Element, kinds};

// The tables of vertices.
#[derive(Clone, Copy)]
pub enum VertexTable {
    V,
    Vt,
    Vn,
    Vp,
}

// Which number of a corner names a record of that table, in an element of that kind.
fn place_of(table: VertexTable, kind: u32) -> Option<u32>
    ensures { result ≡ place_of (kind_of table) kind }
{
    let curve2 = kind == kinds::CURVE2;
    match table {
        VertexTable::V => { if curve2 { None } else { Some(CORNER_V) } }
        VertexTable::Vt => Some(CORNER_VT),
        VertexTable::Vn => Some(CORNER_VN),
        VertexTable::Vp => { if curve2 { Some(CORNER_V) } else { None } }
    }
}

// A number past the marks is passed over.
fn mark(marks: &mut [u32], number: u32)
    ensures { marks.new ≡ mark_number marks.old number }
{
    if 1 <= number && number as usize <= marks.len() {
        marks[number as usize - 1] = 1;
    }
}

fn mark_every(corners: &[u32], run: CornerRun, place: u32, marks: &mut [u32])
    ensures { marks.new ≡ mark_every corners.now run place run.count marks.old }
{
    for j in 0..run.count {
        mark(marks, tables::corner_number(corners, run, j, place));
    }
}

fn mark_element(table: VertexTable, corners: &[u32], element: Element, marks: &mut [u32])
    ensures { marks.new ≡ mark_element (kind_of table) corners.now element marks.old }
{
    if let Some(place) = place_of(table, element.kind) {
        mark_every(corners, element.corners, place, marks);
    }
}

pub fn mark_elements(
    table: VertexTable,
    elements: &[u32],
    count: u32,
    corners: &[u32],
    marks: &mut [u32],
)
    ensures { marks.new ≡ mark_elements (kind_of table) elements.now corners.now count marks.old }
{
    for i in 0..count {
        mark_element(table, corners, table_asking::element_in(elements, i), marks);
    }
}

// Each mark becomes the record's new number; how many are kept.
pub fn number_marks(marks: &mut [u32]) -> u32
    requires { length marks.old ≤ 4294967295 }
    ensures { (result ≡ kept_upto (marked_in marks.old) (length marks.old)) × (marks.new ≡ new_numbers (marked_in marks.old) (length marks.old)) }
{
    let mut kept = 0;
    for mark in marks.iter_mut() {
        if *mark != 0 {
            kept += 1;
            *mark = kept;
        }
    }
    kept
}
