// The functions that C and Rust link: each hands the lent slices on and gives the answer as a record of numbers.
#![tactic(auto)]

ghost use Rattle.std.specs.Prelude.{◌≡◌, length};
ghost use Rattle.std.proofs.lemmas.List.Edits.{sets};
ghost use Rattle.spellings.specs.Rows.{spelling_at, fitting};
ghost use Rattle.keywords.specs.Keywords.{keywords, statement_of};
ghost use Rattle.keywords.specs.Arguments.{arguments};
ghost use Rattle.tables.specs.Tables.{tables};
ghost use Rattle.tables.specs.Lent.{lent};
ghost use Rattle.tables.specs.Asking.{asked_element, asked_body, asked_corner, asked_group, asked_material};
ghost use Rattle.sampler.specs.Answers.{point_on_curve, point_on_surface, run_into};
ghost use Rattle.polyline.specs.Answers.{polyline_into};
ghost use Rattle.point_cubics.specs.Answers.{cubic_at};
ghost use Rattle.read_rooms.specs.Rooms.{rooms_of_text};
ghost use Rattle.reader.specs.Reading.{read_into};
ghost use Rattle.tidier.specs.Tidying.{tidy_into};
ghost use Rattle.sweep.specs.Swept.{sweep_into};
ghost use Rattle.text.specs.Words.{word_of};
ghost use Rattle.read_advice.specs.Advice.{AdviceIs};
ghost use Rattle.keyword_rules.specs.Asked.{carried_of, rule_row_of};
ghost use Rattle.c_records.specs.Answers.{read_in, tidy_in, weights_in, point_in, run_in, polyline_in, sweep_in};
ghost use Rattle.c_tables.specs.Parts.{group_in, material_in, bytes_in};
ghost use Rattle.c_tables.specs.CurveNumbers.{curve_of};
ghost use Rattle.c_tables.specs.Records.{element_record, body_record};

use c_records::{Point, PolylinePoints, ReadRecord, Run, SweepCounts, TidyRecord};
use c_tables::Part;
use c_tables::records::{BodyRecord, ElementRecord};
use keyword_rules::RuleRow;
use read_advice::Advice;
use read_rooms::Rooms;
use tables::{Corner, Tables, TablesMut, Used};

// How many entries of each table the text can need: lent at least these, `kuhlabires_read` never answers 14.
#[unsafe(no_mangle)]
pub extern "C" fn kuhlabires_rooms(text: &[u8]) -> Rooms
    ensures { result ≡ rooms_of_text text.now }
{
    read_rooms::rooms_of(text)
}

// Reads a text into the lent tables.
#[unsafe(no_mangle)]
pub extern "C" fn kuhlabires_read(
    text: &[u8],
    v: &mut [i32],
    vt: &mut [i32],
    vn: &mut [i32],
    vp: &mut [i32],
    corners: &mut [u32],
    elements: &mut [u32],
    bodies: &mut [u32],
    ranges: &mut [i32],
    parameters: &mut [i32],
    loops: &mut [u32],
    spans: &mut [i32],
) -> ReadRecord
    ensures { (result ≡ read_in (read_into text.now (tables v.old vt.old vn.old vp.old corners.old elements.old bodies.old ranges.old parameters.old loops.old spans.old)).outcome) × ((tables v.new vt.new vn.new vp.new corners.new elements.new bodies.new ranges.new parameters.new loops.new spans.new) ≡ (read_into text.now (tables v.old vt.old vn.old vp.old corners.old elements.old bodies.old ranges.old parameters.old loops.old spans.old)).tables) }
{
    let mut lent = TablesMut {
        v,
        vt,
        vn,
        vp,
        corners,
        elements,
        bodies,
        ranges,
        parameters,
        loops,
        spans,
    };
    ReadRecord::from(reader::read(text, &mut lent))
}

// Reads a text into the lent tables and writes its tidy text to the front of `out`; `weights` is 1 where a w of 1.000000 is written too.
#[unsafe(no_mangle)]
pub extern "C" fn kuhlabires_tidy(
    text: &[u8],
    weights: u32,
    v: &mut [i32],
    vt: &mut [i32],
    vn: &mut [i32],
    vp: &mut [i32],
    corners: &mut [u32],
    elements: &mut [u32],
    bodies: &mut [u32],
    ranges: &mut [i32],
    parameters: &mut [i32],
    loops: &mut [u32],
    spans: &mut [i32],
    out: &mut [u8],
) -> TidyRecord
    ensures { (result ≡ tidy_in (tidy_into (weights_in weights) text.now (tables v.old vt.old vn.old vp.old corners.old elements.old bodies.old ranges.old parameters.old loops.old spans.old) out.old).outcome) × ((tables v.new vt.new vn.new vp.new corners.new elements.new bodies.new ranges.new parameters.new loops.new spans.new) ≡ (tidy_into (weights_in weights) text.now (tables v.old vt.old vn.old vp.old corners.old elements.old bodies.old ranges.old parameters.old loops.old spans.old) out.old).tables) × (out.new ≡ (tidy_into (weights_in weights) text.now (tables v.old vt.old vn.old vp.old corners.old elements.old bodies.old ranges.old parameters.old loops.old spans.old) out.old).out) }
{
    let mut lent = TablesMut {
        v,
        vt,
        vn,
        vp,
        corners,
        elements,
        bodies,
        ranges,
        parameters,
        loops,
        spans,
    };
    let choice = c_records::weights_of(weights);
    TidyRecord::from(tidier::tidy(text, choice, &mut lent, out))
}

// Removes every v, vt, vn and vp that no corner names, and writes the new number of each old record to the front of `numbers`, 0 for one that is dropped.
#[unsafe(no_mangle)]
pub extern "C" fn kuhlabires_sweep(
    used: Used,
    v: &mut [i32],
    vt: &mut [i32],
    vn: &mut [i32],
    vp: &mut [i32],
    corners: &mut [u32],
    elements: &mut [u32],
    bodies: &mut [u32],
    ranges: &mut [i32],
    parameters: &mut [i32],
    loops: &mut [u32],
    spans: &mut [i32],
    numbers: &mut [u32],
) -> SweepCounts
    ensures { (result ≡ sweep_in (sweep_into used (tables v.old vt.old vn.old vp.old corners.old elements.old bodies.old ranges.old parameters.old loops.old spans.old) numbers.old).outcome) × ((tables v.new vt.new vn.new vp.new corners.new elements.new bodies.new ranges.new parameters.new loops.new spans.new) ≡ (sweep_into used (tables v.old vt.old vn.old vp.old corners.old elements.old bodies.old ranges.old parameters.old loops.old spans.old) numbers.old).tables) × (numbers.new ≡ (sweep_into used (tables v.old vt.old vn.old vp.old corners.old elements.old bodies.old ranges.old parameters.old loops.old spans.old) numbers.old).numbers) }
{
    let mut lent = TablesMut {
        v,
        vt,
        vn,
        vp,
        corners,
        elements,
        bodies,
        ranges,
        parameters,
        loops,
        spans,
    };
    SweepCounts::from(sweep::sweep(used, &mut lent, numbers))
}

// The element of that number, counted from 1; all zeros for no such element.
#[unsafe(no_mangle)]
pub extern "C" fn kuhlabires_element_of(used: Used, elements: &[u32], element: u32) -> ElementRecord
    ensures { result ≡ element_record (asked_element used elements.now element) }
{
    c_tables::records::element_record(table_asking::element_of(used, elements, element))
}

// The body of that number, counted from 1, with its range; all zeros for no such body.
#[unsafe(no_mangle)]
pub extern "C" fn kuhlabires_body_of(
    used: Used,
    bodies: &[u32],
    ranges: &[i32],
    body: u32,
) -> BodyRecord
    ensures { result ≡ body_record (asked_body used bodies.now ranges.now body) }
{
    c_tables::records::body_record(table_asking::body_of(used, bodies, ranges, body))
}

// The number of the element that is the curv2 of that number, counted from 1 over the curv2 alone; 0 for none.
#[unsafe(no_mangle)]
pub extern "C" fn kuhlabires_curv2_element(used: Used, elements: &[u32], curve: u32) -> u32
    ensures { result ≡ curve_of used elements.now curve }
{
    c_tables::curve_numbers::curve_of(used, elements, curve)
}

// Corner `k`, counted from 0, of the element of that number, counted from 1; three zeros for no such corner.
#[unsafe(no_mangle)]
pub extern "C" fn kuhlabires_corner_of(
    used: Used,
    elements: &[u32],
    corners: &[u32],
    element: u32,
    k: u32,
) -> Corner
    ensures { result ≡ asked_corner used elements.now corners.now element k }
{
    table_asking::corner_of(used, elements, corners, element, k)
}

// The run of group names of the element of that number, counted from 1.
#[unsafe(no_mangle)]
pub extern "C" fn kuhlabires_group_of(
    text: &[u8],
    used: Used,
    elements: &[u32],
    element: u32,
) -> Part
    ensures { (result ≡ group_in text.now used elements.now element) × (bytes_in text.now result ≡ asked_group text.now used elements.now element) }
{
    let e = table_asking::element_of(used, elements, element);
    c_tables::part_of(text, e.group)
}

// The same of its material's name.
#[unsafe(no_mangle)]
pub extern "C" fn kuhlabires_material_of(
    text: &[u8],
    used: Used,
    elements: &[u32],
    element: u32,
) -> Part
    ensures { (result ≡ material_in text.now used elements.now element) × (bytes_in text.now result ≡ asked_material text.now used elements.now element) }
{
    let e = table_asking::element_of(used, elements, element);
    c_tables::part_of(text, e.material)
}

// The lent tables as one value, to be asked.
fn tables_of<'a>(
    v: &'a [i32],
    vt: &'a [i32],
    vn: &'a [i32],
    vp: &'a [i32],
    corners: &'a [u32],
    elements: &'a [u32],
    bodies: &'a [u32],
    ranges: &'a [i32],
    parameters: &'a [i32],
    loops: &'a [u32],
    spans: &'a [i32],
) -> Tables<'a>
    ensures { lent result ≡ tables v.now vt.now vn.now vp.now corners.now elements.now bodies.now ranges.now parameters.now loops.now spans.now }
{
    Tables {
        v,
        vt,
        vn,
        vp,
        corners,
        elements,
        bodies,
        ranges,
        parameters,
        loops,
        spans,
    }
}

// The point at t of the curv or curv2 of that number, counted from 1 over all elements.
#[unsafe(no_mangle)]
pub extern "C" fn kuhlabires_point_on_curve(
    used: Used,
    v: &[i32],
    vt: &[i32],
    vn: &[i32],
    vp: &[i32],
    corners: &[u32],
    elements: &[u32],
    bodies: &[u32],
    ranges: &[i32],
    parameters: &[i32],
    loops: &[u32],
    spans: &[i32],
    element: u32,
    t: i32,
) -> Point
    ensures { result ≡ point_in (point_on_curve used (tables v.now vt.now vn.now vp.now corners.now elements.now bodies.now ranges.now parameters.now loops.now spans.now) element t).outcome }
{
    let lent = tables_of(
        v, vt, vn, vp, corners, elements, bodies, ranges, parameters, loops, spans,
    );
    Point::from(sampler::point_on_curve(used, &lent, element, t))
}

// The point at s along u and t along v of the surf of that number.
#[unsafe(no_mangle)]
pub extern "C" fn kuhlabires_point_on_surface(
    used: Used,
    v: &[i32],
    vt: &[i32],
    vn: &[i32],
    vp: &[i32],
    corners: &[u32],
    elements: &[u32],
    bodies: &[u32],
    ranges: &[i32],
    parameters: &[i32],
    loops: &[u32],
    spans: &[i32],
    element: u32,
    s: i32,
    t: i32,
) -> Point
    ensures { result ≡ point_in (point_on_surface used (tables v.now vt.now vn.now vp.now corners.now elements.now bodies.now ranges.now parameters.now loops.now spans.now) element s t).outcome }
{
    let lent = tables_of(
        v, vt, vn, vp, corners, elements, bodies, ranges, parameters, loops, spans,
    );
    Point::from(sampler::point_on_surface(used, &lent, element, s, t))
}

// The point at j/64 of a segment of the curv or curv2 of that number, a cubic Bezier; segments count from 0.
#[unsafe(no_mangle)]
pub extern "C" fn kuhlabires_cubic_at(
    used: Used,
    v: &[i32],
    vt: &[i32],
    vn: &[i32],
    vp: &[i32],
    corners: &[u32],
    elements: &[u32],
    bodies: &[u32],
    ranges: &[i32],
    parameters: &[i32],
    loops: &[u32],
    spans: &[i32],
    element: u32,
    segment: u32,
    j: u32,
) -> Point
    ensures { result ≡ point_in (cubic_at used (tables v.now vt.now vn.now vp.now corners.now elements.now bodies.now ranges.now parameters.now loops.now spans.now) element segment j).outcome }
{
    let lent = tables_of(
        v, vt, vn, vp, corners, elements, bodies, ranges, parameters, loops, spans,
    );
    Point::from(point_cubics::cubic_at(used, &lent, element, segment, j))
}

// A run of `steps` steps on a curv or curv2: its points fill the table from entry `at` on, counted in numbers.
#[unsafe(no_mangle)]
pub extern "C" fn kuhlabires_run_on_curve(
    used: Used,
    v: &[i32],
    vt: &[i32],
    vn: &[i32],
    vp: &[i32],
    corners: &[u32],
    elements: &[u32],
    bodies: &[u32],
    ranges: &[i32],
    parameters: &[i32],
    loops: &[u32],
    spans: &[i32],
    element: u32,
    steps: u32,
    points: &mut [i32],
    at: usize,
) -> Run
    ensures { (result ≡ run_in (run_into used (tables v.now vt.now vn.now vp.now corners.now elements.now bodies.now ranges.now parameters.now loops.now spans.now) element steps at points.old).outcome) × (points.new ≡ (run_into used (tables v.now vt.now vn.now vp.now corners.now elements.now bodies.now ranges.now parameters.now loops.now spans.now) element steps at points.old).points) }
{
    let lent = tables_of(
        v, vt, vn, vp, corners, elements, bodies, ranges, parameters, loops, spans,
    );
    Run::from(sampler::run_on_curve(used, &lent, element, steps, points, at))
}

// The polyline of a curv or curv2: its points fill the table from entry `at` on, counted in numbers.
#[unsafe(no_mangle)]
pub extern "C" fn kuhlabires_polyline(
    used: Used,
    v: &[i32],
    vt: &[i32],
    vn: &[i32],
    vp: &[i32],
    corners: &[u32],
    elements: &[u32],
    bodies: &[u32],
    ranges: &[i32],
    parameters: &[i32],
    loops: &[u32],
    spans: &[i32],
    element: u32,
    tolerance: i32,
    points: &mut [i32],
    at: usize,
) -> PolylinePoints
    ensures { (result ≡ polyline_in (polyline_into used (tables v.now vt.now vn.now vp.now corners.now elements.now bodies.now ranges.now parameters.now loops.now spans.now) element tolerance at points.old).outcome) × (points.new ≡ (polyline_into used (tables v.now vt.now vn.now vp.now corners.now elements.now bodies.now ranges.now parameters.now loops.now spans.now) element tolerance at points.old).points) }
{
    let lent = tables_of(
        v, vt, vn, vp, corners, elements, bodies, ranges, parameters, loops, spans,
    );
    PolylinePoints::from(polyline::polyline(used, &lent, element, tolerance, points, at))
}

// The spelling of row `row`, from 0, of the keywords, written to the front of `out`; its length, or 0 for no such row or no room.
#[unsafe(no_mangle)]
pub extern "C" fn kuhlabires_keyword(row: usize, out: &mut [u8]) -> usize
    ensures { (result ≡ length (fitting (length out.old) (spelling_at keywords row))) × (out.new ≡ sets out.old 0 (fitting (length out.old) (spelling_at keywords row))) }
{
    keywords::keyword_spelling(row, out)
}

// The same of the fixed words after a keyword.
#[unsafe(no_mangle)]
pub extern "C" fn kuhlabires_argument(row: usize, out: &mut [u8]) -> usize
    ensures { (result ≡ length (fitting (length out.old) (spelling_at arguments row))) × (out.new ≡ sets out.old 0 (fitting (length out.old) (spelling_at arguments row))) }
{
    keywords::argument_spelling(row, out)
}

// What is told of the place of a refusal besides its number.
#[unsafe(no_mangle)]
pub extern "C" fn kuhlabires_explain(text: &[u8], place: usize) -> Advice
    ensures { AdviceIs text.now place result }
{
    read_advice::explain(text, place)
}

// The rules of the keyword that the bytes begin with, and the form of word `index`, from 0, of `words` after it.
#[unsafe(no_mangle)]
pub extern "C" fn kuhlabires_rules(keyword: &[u8], words: usize, index: usize) -> RuleRow
    ensures { result ≡ rule_row_of (carried_of (statement_of (word_of keyword.now))) words index }
{
    keyword_rules::rules_of_keyword(keyword, words, index)
}
