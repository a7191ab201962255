// The numbers of a loop part, from its two tables.
ghost use Rattle.std.specs.Prelude.{◌≡◌, ◌+◌, ◌*◌, ◌≤◌, length};
ghost use Rattle.tables.specs.Records.{loop_width, span_width, part_in};
ghost use Rattle.tables.specs.Rows.{loop_numbers, span_numbers};

use crate::{entry_in, widths};

// What begins with the part, its curv2's number, its two numbers.
#[derive(Clone, Copy)]
pub struct LoopPart {
    pub begins: u32,
    pub curve: u32,
    pub from: i32,
    pub to: i32,
}

// What a part begins; 0 goes on with a loop.
pub const TRIM: u32 = 1;

pub const HOLE: u32 = 2;

// The part at that index, counted from 0, which stands whole within the lent entries of both tables.
pub fn lent_part(loops: &[u32], spans: &[i32], index: usize) -> LoopPart
    requires { (loop_width * index + loop_width ≤ length loops.now) × (span_width * index + span_width ≤ length spans.now) }
    ensures { result ≡ part_in loops.now spans.now index }
{
    let at = widths::LOOP * index;
    let from = widths::SPAN * index;
    LoopPart {
        begins: loops[at],
        curve: loops[at + 1],
        from: spans[from],
        to: spans[from + 1],
    }
}

// The numbers of a part's record, in their order.
pub fn loop_row(part: LoopPart) -> [u32; widths::LOOP]
    ensures { result ≡ loop_numbers part }
{
    [part.begins, part.curve]
}

// Those of its span.
pub fn span_row(part: LoopPart) -> [i32; widths::SPAN]
    ensures { result ≡ span_numbers part }
{
    [part.from, part.to]
}

// The part at that index; a number past a table's end is 0.
pub fn part_at(loops: &[u32], spans: &[i32], index: usize) -> LoopPart
    requires { index ≤ 8589934590 }
    ensures { result ≡ part_in loops.now spans.now index }
{
    let at = widths::LOOP * index;
    let from = widths::SPAN * index;
    LoopPart {
        begins: entry_in(loops, at, 0),
        curve: entry_in(loops, at + 1, 0),
        from: entry_in(spans, from, 0),
        to: entry_in(spans, from + 1, 0),
    }
}
