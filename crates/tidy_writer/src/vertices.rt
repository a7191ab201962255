// The lines of v, vt, vn, vp, from their tables.
ghost use Rattle.std.specs.Prelude.{◌≡◌, ◌∷◌, map, ◌≤◌, ◌-◌, min, pos, nat_abs, get_or, take, drop};
ghost use Rattle.text.specs.Written.{written_line, written_lines};
ghost use Rattle.references.specs.Written.{written_number};
ghost use Rattle.keywords.specs.Keywords.{keyword_of};
ghost use Rattle.tidy_words.specs.Emitting.{Emitted};
ghost use Rattle.tidy_words.specs.Emitting.{spaced};
ghost use Rattle.tidy_writer.specs.Rows.{row_numbers, vertex_rows};

use statements::Carried;
use tables::vertices::VP_START;
use tidy_form::Weights;
use tidy_words::{emit, emit_spaced};

// The records of one table of vertices: the statement of each, whether it begins with how many of its numbers were given, the choice of weights, how many numbers
// it has, and the numbers of all.
#[derive(Clone, Copy)]
pub struct VertexRows<'a> {
    pub statement: Carried,
    pub counted: bool,
    pub weights: Weights,
    pub width: usize,
    pub values: &'a [i32],
}

// Up to `count` numbers from `first` on, each with a space before it.
pub fn emit_numbers(values: &[i32], first: usize, count: usize, out: &mut [u8], at: usize) -> usize
    requires { at ≤ 16777217 }
    ensures { Emitted at (spaced (map written_number (take count (drop first values.now)))) out.old out.new result }
{
    // A slice, and not `skip`, which steps over each number before the first.
    let rest = &values[first.min(values.len())..];
    let mut end = at;
    for value in &rest[..count.min(rest.len())] {
        end = emit_spaced(*value, out, end);
    }
    end
}

// A keyword and up to `count` numbers.
fn number_line(
    statement: Carried,
    values: &[i32],
    first: usize,
    count: usize,
    out: &mut [u8],
    at: usize,
) -> usize
    ensures { Emitted at (written_line (keyword_of statement ∷ map written_number (take count (drop first values.now)))) out.old out.new result }
{
    let words = emit(statement, out, at);
    let end = emit_numbers(values, first, count, out, words);
    emit(b'\n', out, end)
}

// How many numbers were given, of the record that begins with it.
fn given_count(values: &[i32], width: usize, first: usize) -> usize
    requires { 1 ≤ width }
    ensures { result ≡ min (nat_abs (get_or values.now first (pos 0))) (width - 1) }
{
    let given = word_format::magnitude(tables::entry_in(values, first, 0)) as usize;
    given.min(width - 1)
}

// The line of the record that begins with the number `first`.
fn row_line(rows: &VertexRows<'_>, first: usize, out: &mut [u8], at: usize) -> usize
    requires { (1 ≤ rows.now.width) × (rows.now.width ≤ 4) × (first ≤ 17179869180) }
    ensures { Emitted at (written_line (keyword_of rows.now.statement ∷ map written_number (row_numbers rows.now.counted rows.now.weights (take rows.now.width (drop first rows.now.values.now))))) out.old out.new result }
{
    if rows.counted {
        let count = given_count(rows.values, rows.width, first);
        return number_line(
            rows.statement,
            rows.values,
            first + VP_START,
            count,
            out,
            at,
        );
    }
    let count = tidy_form::weighted_count(rows.weights, rows.values, rows.width, first);
    number_line(rows.statement, rows.values, first, count, out, at)
}

// The lines of the first `used` records.
pub fn vertex_lines(rows: &VertexRows<'_>, used: u32, out: &mut [u8], at: usize) -> usize
    requires { (1 ≤ rows.now.width) × (rows.now.width ≤ 4) × (at ≤ 16777217) }
    ensures { Emitted at (written_lines (vertex_rows rows.now.statement rows.now.counted rows.now.weights rows.now.width used rows.now.values.now)) out.old out.new result }
{
    let mut end = at;
    for k in 0..used as usize {
        end = row_line(rows, rows.width * k, out, end);
    }
    end
}
