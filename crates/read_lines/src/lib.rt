// All lines of a text, one after the other.
#![tactic(auto)]

ghost use Rattle.std.specs.Prelude.{◌≡◌, ◌≤◌, ◌<◌, length};
ghost use Rattle.tables.specs.Lent.{lent_mut, SameSlices};
ghost use Rattle.read_lines.specs.Answered.{rooms_of, read_answer};
ghost use Rattle.read_lines.specs.Lines.{begin, Blank, lines_read, LinesIs};

use read_dispatch::line_at;
use read_state::{Form, Names, Open, State};
use refusals::{Reason, Refusal};
use tables::{NameRun, TablesMut, Used};

fn begin() -> State
    ensures { result ≡ begin }
{
    State {
        used: Used {
            v: 0,
            vt: 0,
            vn: 0,
            vp: 0,
            corners: 0,
            elements: 0,
            bodies: 0,
            parameters: 0,
            loops: 0,
        },
        curves: 0,
        names: Names {
            group: NameRun {
                place: 0,
                length: 0,
            },
            material: NameRun {
                place: 0,
                length: 0,
            },
            smoothing: 0,
        },
        form: Form {
            basis: 0,
            rational: 0,
            degree_u: 0,
            degree_v: 0,
        },
        open: Open {
            kind: 0,
            controls: 0,
            parts: 0,
            u_at: 0,
            v_at: 0,
        },
    }
}

// All lines, into tables that hold nothing; a refusal leaves in them what came before it, and what the line at fault had stored.
fn store_lines(text: &[u8], t: &mut TablesMut) -> Result<Used, Refusal>
    requires text_len_bound { length text.now ≤ 16777216 }
    requires blank { Blank (lent_mut t.old) }
    ensures stored { LinesIs text.now (lent_mut t.old) (lent_mut t.new) result }
    ensures lengths { rooms_of (lent_mut t.new) ≡ rooms_of (lent_mut t.old) }
    ensures same { SameSlices t.old t.new }
{
    let mut state = begin();
    let mut at: usize = 0;
    // No range counts the places: each line ends where it is read to.
    while at < text.len() {
        let line = line_at(text, at, state, t)?;
        state = line.value;
        at = line.next;
    }
    if state.open.kind != 0 {
        return Err(Refusal {
            reason: Reason::NotHere,
            place: text.len(),
        });
    }
    Ok(state.used)
}

// All lines, into tables that hold nothing and that hold nothing after a refusal.
pub fn lines_of(text: &[u8], t: &mut TablesMut) -> Result<Used, Refusal>
    requires text_len_bound { length text.now ≤ 16777216 }
    requires blank { Blank (lent_mut t.old) }
    ensures read { read_answer result (lent_mut t.new) ≡ lines_read text.now (lent_mut t.old) }
    ensures lengths { rooms_of (lent_mut t.new) ≡ rooms_of (lent_mut t.old) }
    ensures same { SameSlices t.old t.new }
{
    let read = store_lines(text, t);
    if read.is_err() {
        t.clear();
    }
    read
}
