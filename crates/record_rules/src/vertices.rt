ghost use Rattle.std.specs.Prelude.{◌≡◌};
ghost use Rattle.record_rules.specs.Vertices.{vertex_obeys, given_obeys, parameter_vertex_obeys, control_obeys};

use crate::numbers::run_in_range;
use tables::vertices::{WEIGHT, lent_parameter_vertex};
use tables::widths;

// Whether record `number`, of `width` numbers, is used and lent, its numbers in range.
#[tactic(auto, unfolding(crate::specs::Vertices::vertex_obeys))]
pub fn vertex(values: &[i32], width: u32, used: u32, number: u32) -> bool
    ensures { result ≡ vertex_obeys width values.now used number }
{
    let width = width as usize;
    1 <= number && number <= used && run_in_range(values, width * (number as usize - 1), width)
}

// v is 0 where fewer than two were given, w 1.000000 where fewer than three.
#[tactic(auto, unfolding(crate::specs::Vertices::given_obeys))]
fn given(count: i32, v: i32, w: i32) -> bool
    ensures { result ≡ given_obeys count v w }
{
    1 <= count && count <= 3 && (2 <= count || v == 0) && (3 <= count || w == WEIGHT)
}

#[tactic(auto, unfolding(crate::specs::Vertices::parameter_vertex_obeys))]
pub fn parameter_vertex(values: &[i32], used: u32, number: u32) -> bool
    ensures { result ≡ parameter_vertex_obeys values.now used number }
{
    if !vertex(values, widths::VP as u32, used, number) {
        return false;
    }
    let own = lent_parameter_vertex(values, number as usize - 1);
    given(own.given, own.v, own.w)
}

// A curv2's control has at least two coordinates given.
#[tactic(auto, unfolding(crate::specs::Vertices::control_obeys))]
pub fn control(values: &[i32], used: u32, number: u32) -> bool
    ensures { result ≡ control_obeys values.now used number }
{
    parameter_vertex(values, used, number)
        && 2 <= lent_parameter_vertex(values, number as usize - 1).given
}
