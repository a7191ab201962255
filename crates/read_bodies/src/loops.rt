// A trim or hole line: two numbers and a curv2 for each part of the loop.
ghost use Rattle.std.specs.Prelude.{◌≡◌, ◌*◌, ◌≤◌, length};
ghost use Rattle.statements.specs.declared.Carried.TheVariants.{Trim};
ghost use Rattle.statements.specs.Rules.{rules_of, counted_by};
ghost use Rattle.read_bodies.specs.Loops.{CurveIs, PartIs, LoopIs, beginning_of};

use crate::numbers::{NextNumber, next_number};
use references::reference::reference_at;
use statements::rows::loop_rules;
use statements::rules::counted;
use table_store::put;
use tables::parts::LoopPart;
use tables::{parts, widths};
use text::{AfterBlanks, Parsed, skip_blanks};

// What a loop's line goes on with: a part, or its end with the place of the next line.
#[derive(Clone, Copy)]
pub enum PartMet {
    Part {
        from: i32,
        to: i32,
        curve: u32,
        end: usize,
    },
    End(usize),
}

// The next word of the line, one of `curves` curv2s.
fn next_curve(text: &[u8], at: usize, curves: u32) -> Option<Parsed<u32>>
    requires { at ≤ length text.now }
    ensures { CurveIs curves text.now at result }
{
    match skip_blanks(text, at) {
        AfterBlanks::Start(p) => reference_at(text, p, curves).ok(),
        AfterBlanks::End(_) => None,
        AfterBlanks::Bad(_) => None,
    }
}

// What a loop's line goes on with at `at`, which is between words. None for what is neither a part nor its end.
fn next_part(text: &[u8], at: usize, curves: u32) -> Option<PartMet>
    requires { at ≤ length text.now }
    ensures { PartIs curves text.now at result }
{
    match next_number(text, at)? {
        NextNumber::End(q) => Some(PartMet::End(q)),
        NextNumber::Number(from) => match next_number(text, from.next)? {
            NextNumber::End(_) => None,
            NextNumber::Number(to) => {
                let curve = next_curve(text, to.next, curves)?;
                Some(PartMet::Part {
                    from: from.value,
                    to: to.value,
                    curve: curve.value,
                    end: curve.next,
                })
            }
        },
    }
}

// What begins with the part, as the number that its record holds: a trim, a hole, or nothing at the second part and later.
fn begins_with(hole: bool, part: u32) -> u32
    ensures { result ≡ beginning_of hole part }
{
    match (part, hole) {
        (0, true) => parts::HOLE,
        (0, false) => parts::TRIM,
        _ => 0,
    }
}

// Whether a trim or a hole may have as many parts, each of three words.
fn loop_counted(parts: u32) -> bool
    ensures { result ≡ counted_by (rules_of Trim).count (3 * parts) }
{
    let rules = loop_rules();
    counted(rules.count, 3 * parts as usize)
}

// A trim or hole line of an open surface, `at` just after the keyword; its parts are stored after the `used` ones: how many.
pub fn take_loop(
    text: &[u8],
    at: usize,
    hole: bool,
    curves: u32,
    used: u32,
    loops: &mut [u32],
    spans: &mut [i32],
) -> Option<Parsed<u32>>
    requires { (at ≤ length text.now) × (length text.now ≤ 16777216) }
    ensures { LoopIs text.now at hole curves used loops.old loops.new spans.old spans.new result }
{
    let mut i = at;
    let mut place: usize = widths::LOOP * (used as usize);
    let mut count: u32 = 0;
    // No range counts the places: each word ends where it is read to.
    loop {
        match next_part(text, i, curves)? {
            PartMet::End(next) => {
                if !loop_counted(count) {
                    return None;
                }
                return Some(Parsed { value: count, next });
            }
            PartMet::Part {
                from,
                to,
                curve,
                end,
            } => {
                let part = LoopPart {
                    begins: begins_with(hole, count),
                    curve,
                    from,
                    to,
                };
                let row = parts::loop_row(part);
                if !put(loops, place, &row) {
                    return None;
                }
                let span = parts::span_row(part);
                if !put(spans, place, &span) {
                    return None;
                }
                place += widths::LOOP;
                count += 1;
                i = end;
            }
        }
    }
}
