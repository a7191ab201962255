// The line at a place: its statement found and its words taken, or its refusal.
#![tactic(auto)]

mod families; // statements by the function that takes their line
mod by_family; // a line's function by its family
mod keys; // what stands first in a line

ghost use Rattle.std.specs.Prelude.{◌<◌, length};
ghost use Rattle.tables.specs.Lent.{lent_mut, SameSlices};
ghost use Rattle.read_vertex_lines.specs.Bounds.{InBounds};
ghost use Rattle.read_dispatch.specs.Taking.{KeyIs, LineIs, SameLengths};

use crate::by_family::take_line;
use crate::families::family_of;
use crate::keys::{Key, key_at};
use read_state::State;
use read_vertex_lines::LineFault;
use refusals::{Reason, Refusal};
use tables::TablesMut;
use text::Parsed;

// The line that starts at `at`, by its key. Where nothing is wrong with the line itself, there is no room for it.
pub fn line_with(
    key: Key,
    text: &[u8],
    at: usize,
    state: State,
    t: &mut TablesMut,
) -> Result<Parsed<State>, Refusal>
    requires at_in_bounds { (at < length text.now) × InBounds text.now at state }
    requires key_is { KeyIs text.now at key }
    ensures taken { LineIs text.now at state (lent_mut t.old) (lent_mut t.new) result }
    ensures lengths { SameLengths (lent_mut t.old) (lent_mut t.new) }
    ensures same { SameSlices t.old t.new }
{
    match key {
        Key::End(next) => Ok(Parsed { value: state, next }),
        Key::Bad(place) => Err(Refusal {
            reason: Reason::ByteNotAllowed,
            place,
        }),
        Key::Word { place, letter, end } => {
            match take_line(family_of(letter), text, end, state, t) {
                Ok(after) => Ok(after),
                Err(LineFault::AtKeyword(reason)) => Err(Refusal { reason, place }),
                Err(LineFault::Unknown) => {
                    let vp = &mut *t.vp;
                    read_diagnosis::diagnose(text, at, state, vp)?;
                    Err(Refusal {
                        reason: Reason::NoTableRoom,
                        place,
                    })
                }
            }
        }
    }
}

// The line that starts at `at`.
pub fn line_at(
    text: &[u8],
    at: usize,
    state: State,
    t: &mut TablesMut,
) -> Result<Parsed<State>, Refusal>
    requires at_in_bounds { (at < length text.now) × InBounds text.now at state }
    ensures taken { LineIs text.now at state (lent_mut t.old) (lent_mut t.new) result }
    ensures lengths { SameLengths (lent_mut t.old) (lent_mut t.new) }
    ensures same { SameSlices t.old t.new }
{
    line_with(key_at(text, at), text, at, state, t)
}
