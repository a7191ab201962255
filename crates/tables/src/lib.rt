// The lent tables: how many records of each kind are used, and where the numbers of a record stand.
#![tactic(auto)]

ghost use Rattle.std.specs.Prelude.{◌≡◌, ◌+◌, ◌*◌, ◌^◌, ◌≤◌, leb, length, get_or};
ghost use Rattle.tables.specs.Records.{element_width, body_width, range_width, corner_width, number_at, element_in, body_in, corner_start, corner_place, corners_length, corners_end, corner_in};
ghost use Rattle.tables.specs.Rows.{corner_numbers, element_numbers, body_numbers, range_numbers, HoldsFrom};

pub mod bases;
pub mod kinds;
mod lent;
pub mod limits;
pub mod parts;
pub mod vertices;
pub mod widths;

pub use lent::{Tables, TablesMut};

// Records, but for the corners, which count numbers.
#[repr(C)]
#[derive(Clone, Copy)]
pub struct Used {
    pub v: u32,
    pub vt: u32,
    pub vn: u32,
    pub vp: u32,
    pub corners: u32,
    pub elements: u32,
    pub bodies: u32,
    pub parameters: u32,
    pub loops: u32,
}

// A run of an element's corners: the number of the corners' table that it begins at, counted from 0, and how many corners it has.
#[derive(Clone, Copy)]
pub struct CornerRun {
    pub first: u32,
    pub count: u32,
}

// A run of names in the text, from the first name to the last; both numbers are 0 for none.
#[derive(Clone, Copy)]
pub struct NameRun {
    pub place: u32,
    pub length: u32,
}

// The numbers of an element's record, in their order; docs/RECORDS.md says what each is.
#[derive(Clone, Copy)]
pub struct Element {
    pub kind: u32,
    pub corners: CornerRun,
    pub body: u32,
    pub smoothing: u32,
    pub group: NameRun,
    pub material: NameRun,
}

// The numbers of a body's record and of its range, in their order.
#[derive(Clone, Copy)]
pub struct Body {
    pub basis: u32,
    pub rational: u32,
    pub degree_u: u32,
    pub degree_v: u32,
    pub first_parameter: u32,
    pub count_u: u32,
    pub count_v: u32,
    pub first_loop: u32,
    pub loops: u32,
    pub start_u: i32,
    pub end_u: i32,
    pub start_v: i32,
    pub end_v: i32,
}

// A corner's references, each counted from 1; 0 for none.
#[repr(C)]
#[derive(Clone, Copy)]
pub struct Corner {
    pub v: u32,
    pub vt: u32,
    pub vn: u32,
}

// The entry at `at`, `none` past the table's end.
pub fn entry_in<T: Copy>(entries: &[T], at: usize, none: T) -> T
    ensures { result ≡ get_or entries.now at none }
{
    entries.get(at).copied().unwrap_or(none)
}

// The entries from `at` on into a row, `none` past the table's end.
pub fn entries_from<T: Copy>(entries: &[T], at: usize, none: T, row: &mut [T])
    ensures { HoldsFrom none entries.now at row.new }
{
    let rest = &entries[at.min(entries.len())..];
    for (i, entry) in row.iter_mut().enumerate() {
        *entry = entry_in(rest, i, none);
    }
}

// Whether the element at that index, counted from 0, stands whole within the lent entries.
pub fn element_fits(elements: &[u32], index: u32) -> bool
    ensures { result ≡ leb (element_width * index + element_width) (length elements.now) }
{
    widths::ELEMENT * index as usize + widths::ELEMENT <= elements.len()
}

// The kind of the element at that index, counted from 0; 0 past the table's end.
pub fn kind_in(elements: &[u32], index: u32) -> u32
    ensures { result ≡ number_at element_width elements.now index 0 }
{
    entry_in(elements, widths::ELEMENT * index as usize, 0)
}

// The element at that index, counted from 0, which stands whole within the lent entries.
pub fn lent_element(elements: &[u32], index: u32) -> Element
    requires { element_width * index + element_width ≤ length elements.now }
    ensures { result ≡ element_in elements.now index }
{
    let at = widths::ELEMENT * index as usize;
    Element {
        kind: elements[at],
        corners: CornerRun {
            first: elements[at + 1],
            count: elements[at + 2],
        },
        body: elements[at + 3],
        smoothing: elements[at + 4],
        group: NameRun {
            place: elements[at + 5],
            length: elements[at + 6],
        },
        material: NameRun {
            place: elements[at + 7],
            length: elements[at + 8],
        },
    }
}

// The numbers of an element's record, in their order.
pub fn element_row(element: Element) -> [u32; widths::ELEMENT]
    ensures { result ≡ element_numbers element }
{
    [
        element.kind,
        element.corners.first,
        element.corners.count,
        element.body,
        element.smoothing,
        element.group.place,
        element.group.length,
        element.material.place,
        element.material.length,
    ]
}

// The body at that index, counted from 0, with its range; both stand whole within the lent entries.
pub fn lent_body(bodies: &[u32], ranges: &[i32], index: u32) -> Body
    requires { (body_width * index + body_width ≤ length bodies.now) × (range_width * index + range_width ≤ length ranges.now) }
    ensures { result ≡ body_in bodies.now ranges.now index }
{
    let at = widths::BODY * index as usize;
    let from = widths::RANGE * index as usize;
    Body {
        basis: bodies[at],
        rational: bodies[at + 1],
        degree_u: bodies[at + 2],
        degree_v: bodies[at + 3],
        first_parameter: bodies[at + 4],
        count_u: bodies[at + 5],
        count_v: bodies[at + 6],
        first_loop: bodies[at + 7],
        loops: bodies[at + 8],
        start_u: ranges[from],
        end_u: ranges[from + 1],
        start_v: ranges[from + 2],
        end_v: ranges[from + 3],
    }
}

// The numbers of a body's record, in their order.
pub fn body_row(body: Body) -> [u32; widths::BODY]
    ensures { result ≡ body_numbers body }
{
    [
        body.basis,
        body.rational,
        body.degree_u,
        body.degree_v,
        body.first_parameter,
        body.count_u,
        body.count_v,
        body.first_loop,
        body.loops,
    ]
}

// Those of its range.
pub fn range_row(body: Body) -> [i32; widths::RANGE]
    ensures { result ≡ range_numbers body }
{
    [body.start_u, body.end_u, body.start_v, body.end_v]
}

// The number that corner `k`, counted from 0, begins at, of those from the number `first` on.
fn corner_start(first: u32, k: usize) -> usize
    requires { k ≤ 2 ^ 62 }
    ensures { result ≡ corner_start first k }
{
    first as usize + widths::CORNER * k
}

// The same of a run.
pub fn corner_place(run: CornerRun, k: usize) -> usize
    requires { k ≤ 2 ^ 62 }
    ensures { result ≡ corner_place run k }
{
    corner_start(run.first, k)
}

// How many numbers a run has.
pub fn corners_length(run: CornerRun) -> usize
    ensures { result ≡ corners_length run }
{
    widths::CORNER * run.count as usize
}

// The number after a run's last.
pub fn corners_end(run: CornerRun) -> usize
    ensures { result ≡ corners_end run }
{
    run.first as usize + widths::CORNER * run.count as usize
}

// Corner `k`, counted from 0, of a run, which stands whole within the lent entries.
pub fn lent_corner(corners: &[u32], run: CornerRun, k: usize) -> Corner
    requires { corner_place run k + corner_width ≤ length corners.now }
    ensures { result ≡ corner_in corners.now (corner_place run k) }
{
    lent_corner_from(corners, run.first, k)
}

// The same, of the corners from the number `first` on.
pub fn lent_corner_from(corners: &[u32], first: u32, k: usize) -> Corner
    requires { corner_start first k + corner_width ≤ length corners.now }
    ensures { result ≡ corner_in corners.now (corner_start first k) }
{
    let at = corner_start(first, k);
    Corner {
        v: corners[at],
        vt: corners[at + 1],
        vn: corners[at + 2],
    }
}

// The same corner; a number past the table's end is 0.
pub fn corner_at(corners: &[u32], run: CornerRun, k: usize) -> Corner
    ensures { result ≡ corner_in corners.now (corner_place run k) }
{
    if corners.len() <= k {
        return lent_corner_from(&[0; widths::CORNER], 0, 0);
    }
    let at = corner_place(run, k);
    if at + 2 < corners.len() {
        return lent_corner(corners, run, k);
    }
    let mut row = [0; widths::CORNER];
    entries_from(corners, at, 0, &mut row);
    lent_corner_from(&row, 0, 0)
}

// The numbers of a corner, in their order.
pub fn corner_row(corner: Corner) -> [u32; widths::CORNER]
    ensures { result ≡ corner_numbers corner }
{
    [corner.v, corner.vt, corner.vn]
}

// Which number of a corner names a v (of a curv2 a vp), a vt and a vn.
pub const CORNER_V: u32 = 0;

pub const CORNER_VT: u32 = 1;

pub const CORNER_VN: u32 = 2;

// That number of corner `k` of a run; 0 past the table's end.
pub fn corner_number(corners: &[u32], run: CornerRun, k: u32, which: u32) -> u32
    ensures { result ≡ get_or corners.now (corner_place run k + which) 0 }
{
    entry_in(corners, corner_place(run, k as usize) + which as usize, 0)
}
