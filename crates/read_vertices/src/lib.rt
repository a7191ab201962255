// The numbers of a line into a table, and the four kinds of vertices.
#![tactic(auto)]

ghost use Rattle.std.specs.Prelude.{◌≡◌, cond, ◌+◌, ◌≤◌, leb, length};
ghost use Rattle.std.proofs.lemmas.List.Edits.{sets};
ghost use Rattle.read_vertices.specs.Into.{NumbersIs, RowIs};
ghost use Rattle.read_vertices.specs.Vertex.{layout_of, blank, VertexIs};

use statements::VertexKind;
use statements::rules::{fewest_words, most_words, vertex_count};
use tables::{vertices, widths};
use text::{AfterBlanks, Parsed};

// What a line's numbers come to: the line ended, or as many as were asked for were found.
#[derive(Clone, Copy)]
pub enum Numbers {
    Ended { count: usize, next: usize },
    Full { end: usize },
}

// At most `most` numbers of the line from `at` on, which is between words, stored from entry `first` on. None where the line has a word that is no number,
// a byte that is not allowed, or more numbers than the table has room for.
pub fn numbers_into(
    text: &[u8],
    at: usize,
    most: usize,
    table: &mut [i32],
    first: usize,
) -> Option<Numbers>
    requires { at ≤ length text.now }
    ensures { NumbersIs most text.now at first table.old table.new result }
{
    let mut i = at;
    for count in 0..most {
        match text::skip_blanks(text, i) {
            AfterBlanks::Start(p) => {
                let number = word_numbers::quick_number_at(text, p).ok()?;
                if !table_store::put(table, first + count, &[number.value]) {
                    return None;
                }
                i = number.next;
            }
            AfterBlanks::End(next) => return Some(Numbers::Ended { count, next }),
            AfterBlanks::Bad(_) => return None,
        }
    }
    Some(Numbers::Full { end: i })
}

// From `least` to `most` numbers and nothing else from `at` on, stored from entry `first` on: how many.
pub fn row_into(
    text: &[u8],
    at: usize,
    least: usize,
    most: usize,
    table: &mut [i32],
    first: usize,
) -> Option<Parsed<usize>>
    requires { at ≤ length text.now }
    ensures { RowIs least most text.now at first table.old table.new result }
{
    match numbers_into(text, at, most, table, first)? {
        Numbers::Ended { count, next } => {
            if count < least {
                return None;
            }
            Some(Parsed { value: count, next })
        }
        Numbers::Full { end } => {
            if most < least {
                return None;
            }
            match text::skip_blanks(text, end) {
                AfterBlanks::End(next) => Some(Parsed { value: most, next }),
                AfterBlanks::Start(_) => None,
                AfterBlanks::Bad(_) => None,
            }
        }
    }
}

// How many numbers a line of a kind has, and where they stand in the record.
#[derive(Clone, Copy)]
pub struct Layout {
    pub least: usize,
    pub most: usize,
    pub width: usize,
    pub lead: usize,
}

fn layout_of(kind: VertexKind) -> Layout
    ensures { result ≡ layout_of kind }
{
    let count = vertex_count(kind);
    let (width, lead) = match kind {
        VertexKind::Geometric => (widths::V, vertices::V_START),
        VertexKind::Texture => (widths::VT, 0),
        VertexKind::Normal => (widths::VN, 0),
        VertexKind::Parametric => (widths::VP, vertices::VP_START),
    };
    Layout {
        least: fewest_words(count),
        most: most_words(count, 4),
        width,
        lead,
    }
}

// The record as it is before the line's numbers: what is absent has its default.
fn put_blank(table: &mut [i32], at: usize, width: usize) -> bool
    ensures value { result ≡ leb (at + length (blank width)) (length table.old) }
    ensures table_after { table.new ≡ cond result (sets table.old at (blank width)) table.old }
{
    if width == widths::V {
        table_store::put(table, at, &[0, 0, 0, vertices::WEIGHT])
    } else {
        table_store::put(table, at, &[0, 0, 0])
    }
}

// A line of v, vt, vn or vp from just after its keyword on, into its table, of which `used` records are used: where the next line starts.
pub fn take_vertex(
    kind: VertexKind,
    text: &[u8],
    at: usize,
    used: u32,
    table: &mut [i32],
) -> Option<usize>
    requires { at ≤ length text.now }
    ensures { VertexIs kind text.now at used table.old table.new result }
{
    let layout = layout_of(kind);
    let first = layout.width * (used as usize);
    if !put_blank(table, first, layout.width) {
        return None;
    }
    let row = row_into(
        text,
        at,
        layout.least,
        layout.most,
        table,
        first + layout.lead,
    )?;
    if layout.lead != 0 {
        table[first] = row.value as i32;
    }
    Some(row.next)
}
