// What C and Rust ask of the tables: an element and a body as records of numbers, the element of a curv2's number, and where a name stands.
#![tactic(auto)]

ghost use Rattle.std.specs.Prelude.{◌≡◌};
ghost use Rattle.c_tables.specs.Parts.{text_part_in};

use tables::NameRun;

pub mod curve_numbers;
pub mod records;

// A part of the caller's text; its length is 0 for none.
#[repr(C)]
#[derive(Clone, Copy)]
pub struct Part {
    pub place: usize,
    pub length: usize,
}

#[tactic(auto, unfolding(crate::specs::Parts::text_part_in))]
pub fn part_of(text: &[u8], run: NameRun) -> Part
    ensures { result ≡ text_part_in text.now run }
{
    let place = run.place as usize;
    let length = run.length as usize;
    if place + length <= text.len() {
        Part { place, length }
    } else {
        Part {
            place: 0,
            length: 0,
        }
    }
}
