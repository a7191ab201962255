// What the program `tidy` prints for its input: 01, "The tidy text".
#![tactic(auto)]

ghost use Rattle.std.specs.Prelude.{◌≡◌, ◌≤◌, min, length};
ghost use Rattle.tables.specs.Lent.{lent_mut, SameSlices};
ghost use Rattle.read_lines.specs.Answered.{rooms_of};
ghost use Rattle.tidy_words.specs.Emitting.{Emitted};
ghost use Rattle.tidy_output.specs.Output.{refusal_line, answer_bytes, printing, printed_in, output, output_of};

use refusals::{Reason, Refusal};
use tables::TablesMut;
use tidier::{Tidied, TidyError};
use tidy_form::Weights;
use tidy_words::{emit, emit_spaced};

fn emit_bytes(bytes: &[u8], out: &mut [u8], at: usize) -> usize
    requires { at ≤ 16777217 }
    ensures { Emitted at bytes.now out.old out.new result }
{
    let mut to = at;
    for b in bytes {
        to = emit(*b, out, to);
    }
    to
}

fn emit_refusal(number: u32, place: u32, out: &mut [u8]) -> usize
    ensures { Emitted 0 (refusal_line number place) out.old out.new result }
{
    let first = emit_bytes(b"refused", out, 0);
    let second = emit_spaced(number, out, first);
    let third = emit_bytes(b" at", out, second);
    let fourth = emit_spaced(place, out, third);
    emit(b'\n', out, fourth)
}

fn refusal_length(number: u32, place: u32) -> usize
    ensures { result ≡ min (length (refusal_line number place)) 16777217 }
{
    let mut none = [0u8; 1];
    emit_refusal(number, place, &mut none)
}

// A refusal, measured first: nothing is written where it has no room.
fn print_line(number: u32, place: u32, out: &mut [u8]) -> usize
    ensures { printing result out.new ≡ printed_in (refusal_line number place) out.old }
{
    if out.len() < refusal_length(number, place) {
        return 0;
    }
    emit_refusal(number, place, out)
}

// How many bytes of the front of `out` are printed for a refusal of any number, which is written there; the largest place is 4,294,967,295.
pub fn print_refusal(number: u32, place: usize, out: &mut [u8]) -> usize
    ensures { printing result out.new ≡ printed_in (refusal_line number (min place 4294967295)) out.old }
{
    print_line(number, place.min(4_294_967_295) as u32, out)
}

// How many bytes of the front of `out` are printed for an answer of tidying into it; a refusal is written there first.
pub fn print_answer(tidied: Result<Tidied, TidyError>, out: &mut [u8]) -> usize
    ensures { printing result out.new ≡ printed_in (answer_bytes tidied out.old) out.old }
{
    match tidied {
        Ok(text) => text.length.min(out.len()),
        Err(TidyError::TooLong { .. }) => print_refusal(Reason::NoOutputRoom.number(), 0, out),
        Err(TidyError::Refused(refusal)) => {
            print_refusal(refusal.reason.number(), refusal.place, out)
        }
    }
}

// Tidies the input into `out` and answers how many bytes of its front are printed.
pub fn tidy_output(input: &[u8], t: &mut TablesMut, out: &mut [u8]) -> usize
    ensures printed { output (printing result out.new) (lent_mut t.new) ≡ output_of input.now (lent_mut t.old) out.old }
    ensures lengths { rooms_of (lent_mut t.new) ≡ rooms_of (lent_mut t.old) }
    ensures same { SameSlices t.old t.new }
{
    if 65_536 < input.len() {
        let too_long = Refusal {
            reason: Reason::TextTooLong,
            place: 0,
        };
        return print_answer(Err(TidyError::Refused(too_long)), out);
    }
    let tidied = tidier::tidy(input, Weights::WhenNeeded, t, out);
    print_answer(tidied, out)
}
