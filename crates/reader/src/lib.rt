// Reading a text into lent tables.
#![tactic(auto)]

ghost use Rattle.std.specs.Prelude.{◌≡◌};
ghost use Rattle.tables.specs.Lent.{lent_mut, SameSlices};
ghost use Rattle.read_lines.specs.Answered.{rooms_of, read_answer};
ghost use Rattle.reader.specs.Reading.{read_into};

use read_lines::lines_of;
use refusals::{Reason, Refusal};
use tables::{TablesMut, Used};

// Reads a text into the lent tables: 01's rules decide what they hold and what is refused. Each table stays as long as it was.
pub fn read(text: &[u8], t: &mut TablesMut) -> Result<Used, Refusal>
    ensures answer { read_answer result (lent_mut t.new) ≡ read_into text.now (lent_mut t.old) }
    ensures lengths { rooms_of (lent_mut t.new) ≡ rooms_of (lent_mut t.old) }
    ensures same { SameSlices t.old t.new }
{
    t.clear();
    if 16_777_216 < text.len() {
        return Err(Refusal {
            reason: Reason::TextTooLong,
            place: 0,
        });
    }
    lines_of(text, t)
}
