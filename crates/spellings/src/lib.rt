// Tables of spellings, walked row by row: the row that a word of a text finds, and a row's spelling written.
#![tactic(auto)]

ghost use Rattle.std.specs.Prelude.{◌≡◌, true, cond, Some, None, ◌+◌, ◌*◌, ◌≤◌, ◌<◌, length, drop};
ghost use Rattle.std.proofs.lemmas.List.Edits.{sets};
ghost use Rattle.lists.specs.Lists.{same};
ghost use Rattle.text.specs.Words.{word_of};
ghost use Rattle.text.specs.Rest.{end_of};
ghost use Rattle.spellings.specs.Rows.{fitting};
ghost use Rattle.spellings.specs.Lookup.{found_in, lettered_in, word_ahead, ahead_in};

// A row: the spelling, blanks up to eleven bytes, the letter of its kind.
pub const WIDTH: usize = 12;

// What a word finds in a table: the number of its row, from 0, and where the word ends; where it finds none, how many rows there are, and its own place.
// Not an Option: `Finds` speaks of one number, which is that of no row where none is found, and two numbers come back in registers, which a keyword of each line pays.
#[derive(Clone, Copy)]
pub struct Found {
    pub row: usize,
    pub end: usize,
}

// Whether a word byte stands at `at`.
fn word_ahead(text: &[u8], at: usize) -> bool
    ensures { result ≡ word_ahead (drop at text.now) }
{
    at < text.len() && text::is_word(text[at])
}

// Where the word at `at` ends if the table's word at `from` is the same. A while: two places go on together for as long as a word lasts.
pub fn same_word(text: &[u8], at: usize, table: &[u8], from: usize) -> Option<usize>
    ensures { result ≡ cond (same (word_of (drop at text.now)) (word_of (drop from table.now))) (Some (end_of text.now at)) None }
{
    let mut i = at;
    let mut j = from;
    while word_ahead(text, i) {
        if table.len() <= j || text[i] != table[j] {
            return None;
        }
        i += 1;
        j += 1;
    }
    if word_ahead(table, j) {
        return None;
    }
    Some(i)
}

// The first of the table's rows that the word at `at` is the spelling of. A first letter that differs settles most rows.
pub fn row_at(text: &[u8], at: usize, table: &[u8], rows: usize) -> Found
    requires at_in_bounds { at < length text.now }
    requires rows_in_bounds { (12 * rows ≤ length table.now) × (ahead_in rows table.now ≡ true) }
    ensures { result ≡ found_in rows table.now (word_of (drop at text.now)) at }
{
    let first = text[at];
    for row in 0..rows {
        let from = WIDTH * row;
        if table[from] == first {
            if let Some(end) = same_word(text, at, table, from) {
                return Found { row, end };
            }
        }
    }
    Found { row: rows, end: at }
}

// Where the table's first row with the letter starts; the table's end where there is none. Not an Option: no word stands at the end, so what is measured and written
// from there is nothing, as the definition says, and no caller asks.
pub fn row_of(table: &[u8], letter: u8, rows: usize) -> usize
    requires { 12 * rows ≤ length table.now }
    ensures { (result ≤ length table.now) × (word_of (drop result table.now) ≡ lettered_in rows table.now letter) }
{
    for row in 0..rows {
        if letter == table[WIDTH * row + 11] {
            return WIDTH * row;
        }
    }
    table.len()
}

// The word at `from` of `source`, copied to `at` of `out`; the place after it. A loop, and not `copy_from_slice`: where the word ends is found as it is copied.
pub fn copy_word(source: &[u8], from: usize, out: &mut [u8], at: usize) -> usize
    requires { at + length (word_of (drop from source.now)) ≤ length out.old }
    ensures { (result ≡ at + length (word_of (drop from source.now))) × (out.new ≡ sets out.old at (word_of (drop from source.now))) }
{
    let mut i = from;
    let mut j = at;
    while word_ahead(source, i) {
        out[j] = source[i];
        i += 1;
        j += 1;
    }
    j
}

// The word at `from` of the table, written to the front of `out` where it has room; how many bytes that are.
pub fn write_row(table: &[u8], from: usize, out: &mut [u8]) -> usize
    requires { from ≤ length table.now }
    ensures { (result ≡ length (fitting (length out.old) (word_of (drop from table.now)))) × (out.new ≡ sets out.old 0 (fitting (length out.old) (word_of (drop from table.now)))) }
{
    if out.len() < text::word_end(table, from) - from {
        return 0;
    }
    copy_word(table, from, out, 0)
}
