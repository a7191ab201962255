// What stands first in a line, so that a caller can look at a line's keyword before the line is taken.
ghost use Rattle.std.specs.Prelude.{◌<◌, length};
ghost use Rattle.read_dispatch.specs.Taking.{KeyIs};

use keywords::{keyword_row, row_letter};
use text::{AfterBlanks, skip_blanks};

// A word, with its place, the letter of its row among the keywords, and its end; no word, and where the next line starts; or a byte that is not allowed.
// Whole numbers, since a keyword's statement that a call answers is stored in pieces and waited for.
#[derive(Clone, Copy)]
pub enum Key {
    Word {
        place: usize,
        letter: u8,
        end: usize,
    },
    End(usize),
    Bad(usize),
}

// Of the line that starts at `at`.
pub fn key_at(text: &[u8], at: usize) -> Key
    requires { at < length text.now }
    ensures { KeyIs text.now at result }
{
    match skip_blanks(text, at) {
        AfterBlanks::End(next) => Key::End(next),
        AfterBlanks::Bad(place) => Key::Bad(place),
        AfterBlanks::Start(place) => {
            let found = keyword_row(text, place);
            Key::Word {
                place,
                letter: row_letter(found.row),
                end: found.end,
            }
        }
    }
}
