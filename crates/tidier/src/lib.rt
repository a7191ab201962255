// A text read into lent tables, and its tidy text written into a lent buffer: 01, "The tidy text".
#![tactic(auto)]

ghost use Rattle.std.specs.Prelude.{◌≡◌};
ghost use Rattle.tables.specs.Lent.{lent, lent_mut, SameSlices};
ghost use Rattle.read_lines.specs.Answered.{rooms_of};
ghost use Rattle.tidy_writer.specs.TidyFrom.{tidy_from};
ghost use Rattle.tidier.specs.Tidying.{tidy_answer, written, tidy_into};
ghost use Rattle.tidier.specs.declared.TidyError.TheVariants as error;

use refusals::Refusal;
use tables::{Tables, TablesMut, Used};
use tidy_form::Weights;
use tidy_writer::tidy_text::write_tidy;

// The length of the tidy text that was written, and what the tables hold.
#[derive(Clone, Copy)]
pub struct Tidied {
    pub length: usize,
    pub used: Used,
}

// Why no tidy text was written: it does not fit (16 at place 0), with the length that it needs and what the tables hold; or the reader's refusal.
#[derive(Clone, Copy)]
pub enum TidyError {
    TooLong { needed: usize, used: Used },
    Refused(Refusal),
}

impl From<Refusal> for TidyError {
    ghost from_gives = { λ r e. e ≡ error.Refused r };

    fn from(refusal: Refusal) -> TidyError {
        TidyError::Refused(refusal)
    }
}

// The tidy text of what the tables hold, written where there is room for all of it.
fn write_whole(
    text: &[u8],
    weights: Weights,
    used: Used,
    t: &Tables,
    out: &mut [u8],
) -> Result<Tidied, TidyError>
    ensures { tidy_answer result (lent t.now) out.new ≡ written (tidy_from weights text.now used (lent t.now)) used (lent t.now) out.old }
{
    let length = write_tidy(text, weights, used, t, out);
    if tidy_words::room_in(out.len()) < length {
        return Err(TidyError::TooLong {
            needed: length,
            used,
        });
    }
    Ok(Tidied { length, used })
}

// Reads a text into the lent tables and writes its tidy text, its weights by the choice, from the front of `out` on. Each table stays as long as it was.
pub fn tidy(
    text: &[u8],
    weights: Weights,
    t: &mut TablesMut,
    out: &mut [u8],
) -> Result<Tidied, TidyError>
    ensures answer { tidy_answer result (lent_mut t.new) out.new ≡ tidy_into weights text.now (lent_mut t.old) out.old }
    ensures lengths { rooms_of (lent_mut t.new) ≡ rooms_of (lent_mut t.old) }
    ensures same { SameSlices t.old t.new }
{
    let used = reader::read(text, t)?;
    write_whole(text, weights, used, &t.shared(), out)
}
