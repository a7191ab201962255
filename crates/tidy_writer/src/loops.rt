// The lines of a surface's trimming loops.
ghost use Rattle.std.specs.Prelude.{◌≡◌, ◌∷◌, [], ◌+◌, ◌*◌, ◌≤◌, drop, eqb};
ghost use Rattle.text.specs.Written.{written_lines};
ghost use Rattle.references.specs.Written.{written_number, written_whole};
ghost use Rattle.tables.specs.Records.{loop_width, span_width};
ghost use Rattle.tidy_form.specs.Printed.{loop_keyword};
ghost use Rattle.tidy_words.specs.Emitting.{Emitted};
ghost use Rattle.tidy_words.specs.Emitting.{spaced};
ghost use Rattle.tidy_writer.specs.Rows.{going_on, begun_lines, loop_lines};

use statements::Carried;
use tables::parts::{HOLE, LoopPart, part_at};
use tidy_words::{emit, emit_spaced};

fn emit_part(part: LoopPart, out: &mut [u8], at: usize) -> usize
    ensures { Emitted at (spaced (written_number part.from ∷ written_number part.to ∷ written_whole part.curve ∷ [])) out.old out.new result }
{
    let to = emit_spaced(part.from, out, at);
    let curve = emit_spaced(part.to, out, to);
    emit_spaced(part.curve, out, curve)
}

// Of `count` parts from `first` on, those that go on with a loop.
fn emit_going_on(
    loops: &[u32],
    spans: &[i32],
    first: usize,
    count: u32,
    out: &mut [u8],
    at: usize,
) -> usize
    requires { (at ≤ 16777217) × (first + count ≤ 8589934590) }
    ensures { Emitted at (spaced (going_on count (drop (loop_width * first) loops.now) (drop (span_width * first) spans.now))) out.old out.new result }
{
    let mut end = at;
    for i in first..first + count as usize {
        let part = part_at(loops, spans, i);
        if 0 < part.begins {
            return end;
        }
        end = emit_part(part, out, end);
    }
    end
}

fn loop_keyword(begins: u32) -> Carried
    ensures { result ≡ loop_keyword (eqb begins 2) }
{
    if begins == HOLE {
        Carried::Hole
    } else {
        Carried::Trim
    }
}

// The line of the loop that begins at `first`, where `count` parts follow; nothing where none begins.
fn loop_line(
    loops: &[u32],
    spans: &[i32],
    first: usize,
    count: u32,
    out: &mut [u8],
    at: usize,
) -> usize
    requires { (at ≤ 16777217) × (first + 1 + count ≤ 8589934590) }
    ensures { Emitted at (written_lines (begun_lines count (drop (loop_width * first) loops.now) (drop (span_width * first) spans.now))) out.old out.new result }
{
    let part = part_at(loops, spans, first);
    if part.begins == 0 {
        return at;
    }
    let words = emit(loop_keyword(part.begins), out, at);
    let rest = emit_part(part, out, words);
    let end = emit_going_on(loops, spans, first + 1, count, out, rest);
    emit(b'\n', out, end)
}

// The lines of the loops that begin in `count` parts from `first` on.
pub fn loop_lines(
    loops: &[u32],
    spans: &[i32],
    first: usize,
    count: u32,
    out: &mut [u8],
    at: usize,
) -> usize
    requires { (at ≤ 16777217) × (first + count ≤ 8589934590) }
    ensures { Emitted at (written_lines (loop_lines count (drop (loop_width * first) loops.now) (drop (span_width * first) spans.now))) out.old out.new result }
{
    let mut end = at;
    for k in 0..count {
        end = loop_line(loops, spans, first + k as usize, count - k - 1, out, end);
    }
    end
}
