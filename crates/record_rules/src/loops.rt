ghost use Rattle.std.specs.Prelude.{◌≡◌, cond, [], ◌+◌, ◌*◌, ◌≤◌, eqb, length};
ghost use Rattle.tables.specs.Records.{part_at, loop_width, span_width, curve2_kind};
ghost use Rattle.record_rules.specs.Rules.{curves_among};
ghost use Rattle.record_rules.specs.Loops.{begins_obeys, part_obeys, each_part, loops_obey};
ghost use Rattle.tables.specs.Tables.{tables};

use crate::numbers::in_range;
use tables::{kinds, parts, widths};

#[tactic(auto, unfolding(crate::specs::Loops::begins_obeys))]
fn begins_obeys(k: usize, begins: u32) -> bool
    ensures { result ≡ begins_obeys k begins }
{
    begins <= parts::HOLE && (k != 0 || parts::TRIM <= begins)
}

// The loop part at index i, which is part k of its body.
#[tactic(auto, unfolding(crate::specs::Loops::part_obeys))]
fn part_obeys(loops: &[u32], spans: &[i32], curves: u32, k: usize, i: usize) -> bool
    requires { (loop_width * i + loop_width ≤ length loops.now) × (span_width * i + span_width ≤ length spans.now) }
    ensures { result ≡ part_obeys curves k (part_at (tables [] [] [] [] [] [] [] [] [] loops.now spans.now) i) }
{
    let part = parts::lent_part(loops, spans, i);
    begins_obeys(k, part.begins)
        && 1 <= part.curve
        && part.curve <= curves
        && in_range(part.from)
        && in_range(part.to)
}

fn each_part(loops: &[u32], spans: &[i32], curves: u32, first: usize, count: usize) -> bool
    requires { (loop_width * (first + count) ≤ length loops.now) × (span_width * (first + count) ≤ length spans.now) }
    ensures { result ≡ each_part (tables [] [] [] [] [] [] [] [] [] loops.now spans.now) curves first count }
{
    for k in 0..count {
        if !part_obeys(loops, spans, curves, k, first + k) {
            return false;
        }
    }
    true
}

// What an element of that kind adds to the count of curv2 elements.
pub fn curve_or_none(kind: u32) -> u32
    ensures { (result ≡ cond (eqb kind curve2_kind) 1 0) × (result ≤ 1) }
{
    u32::from(kind == kinds::CURVE2)
}

// How many curv2 elements stand at indices below `index`; there are no more elements than entries.
fn curves_before(elements: &[u32], index: u32) -> u32
    ensures { result ≡ curves_among elements.now index }
{
    let mut before = 0;
    for i in 0..index {
        if elements.len() <= i as usize {
            return before;
        }
        before += curve_or_none(tables::kind_in(elements, i));
    }
    before
}

// The same for a surface with that many loop parts: a surface without any asks for no count.
pub fn curves_for(elements: &[u32], index: u32, parts: u32) -> u32
    ensures { result ≡ cond (eqb parts 0) 0 (curves_among elements.now index) }
{
    if parts == 0 {
        0
    } else {
        curves_before(elements, index)
    }
}

// The `count` loop parts from `first` on of a surface after `curves` curv2 elements.
#[tactic(auto, unfolding(crate::specs::Loops::loops_obey))]
pub fn loops_with(
    used: u32,
    loops: &[u32],
    spans: &[i32],
    curves: u32,
    first: u32,
    count: u32,
) -> bool
    ensures { result ≡ loops_obey used (tables [] [] [] [] [] [] [] [] [] loops.now spans.now) curves first count }
{
    if count == 0 {
        return first == 0;
    }
    let end = first as usize + count as usize;
    end <= used as usize
        && widths::LOOP * end <= loops.len()
        && widths::SPAN * end <= spans.len()
        && each_part(loops, spans, curves, first as usize, count as usize)
}
