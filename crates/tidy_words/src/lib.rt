// One word of the tidy text or one byte between words, stored where there is room. Each answers the place after what it wrote, 16,777,217 for all that are too far.
#![tactic(auto)]

ghost use Rattle.std.specs.Prelude.{◌≡◌, ℕ, List, [], ◌∷◌, ◌+◌, ◌≤◌, length, min};
ghost use Rattle.std.proofs.lemmas.List.Edits.{sets};
ghost use Rattle.references.specs.Written.{written_whole, written_number, written_corner};
ghost use Rattle.keywords.specs.Keywords.{keyword_of};
ghost use Rattle.keywords.specs.Arguments.{argument_bytes};
ghost use Rattle.tidy_words.specs.Emitting.{emission, emitted_whole, emitted_spaced};

pub mod names;

use keywords::Argument;
use statements::Carried;
use tables::Corner;

const TOO_LONG: usize = 16_777_217;

// The place `length` bytes after `at`.
pub fn place_after(at: usize, length: usize) -> usize
    ensures { result ≡ min (at + length) 16777217 }
{
    at.saturating_add(length).min(TOO_LONG)
}

// How far a text may reach in a buffer of that length.
pub fn room_in(lent: usize) -> usize
    ensures { result ≡ min lent 16777216 }
{
    lent.min(TOO_LONG - 1)
}

// What is written as bytes: how many they are, and the bytes to `at` of `out`, with the place after them.
pub trait Written {
    ghost bytes: { Self → List ℕ };

    fn length(self) -> usize
        ensures { result ≡ length (bytes self) };

    fn write(self, out: &mut [u8], at: usize) -> usize
        requires { at + length (bytes self) ≤ length out.old }
        ensures { (result ≡ at + length (bytes self)) × (out.new ≡ sets out.old at (bytes self)) };
}

impl Written for u8 {
    ghost bytes = { λ b. b ∷ [] };

    fn length(self) -> usize {
        1
    }

    fn write(self, out: &mut [u8], at: usize) -> usize {
        word_format::put_byte(out, at, self)
    }
}

impl Written for Carried {
    ghost bytes = { keyword_of };

    fn length(self) -> usize {
        keywords::keyword_length(self)
    }

    fn write(self, out: &mut [u8], at: usize) -> usize {
        keywords::write_keyword(self, out, at)
    }
}

impl Written for Argument {
    ghost bytes = { argument_bytes };

    fn length(self) -> usize {
        keywords::argument_length(self)
    }

    fn write(self, out: &mut [u8], at: usize) -> usize {
        keywords::write_argument(self, out, at)
    }
}

impl Written for u32 {
    ghost bytes = { written_whole };

    fn length(self) -> usize {
        word_format::whole_length(self)
    }

    fn write(self, out: &mut [u8], at: usize) -> usize {
        word_format::write_whole(out, at, self)
    }
}

impl Written for i32 {
    ghost bytes = { written_number };

    fn length(self) -> usize {
        word_format::number_length(self)
    }

    fn write(self, out: &mut [u8], at: usize) -> usize {
        word_format::write_number(out, at, self)
    }
}

impl Written for Corner {
    ghost bytes = { λ c. written_corner (record { v = c.v; vt = c.vt; vn = c.vn }) };

    fn length(self) -> usize {
        word_format::corner_length(self.v, self.vt, self.vn)
    }

    fn write(self, out: &mut [u8], at: usize) -> usize {
        word_format::write_corner(out, at, self.v, self.vt, self.vn)
    }
}

// A word, where it has room.
pub fn emit<W: Written + Copy>(word: W, out: &mut [u8], at: usize) -> usize
    ensures { emission result out.new ≡ emitted_whole at (W.bytes word) out.old }
{
    let end = place_after(at, word.length());
    if end <= room_in(out.len()) {
        word.write(out, at)
    } else {
        end
    }
}

// A space, and a word.
pub fn emit_spaced<W: Written + Copy>(word: W, out: &mut [u8], at: usize) -> usize
    ensures { emission result out.new ≡ emitted_spaced at (W.bytes word) out.old }
{
    let from = emit(b' ', out, at);
    emit(word, out, from)
}
