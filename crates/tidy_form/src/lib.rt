// The tidy text of a file, as definitions, and the theorems on reading it back. The code is the choice that a caller names.
#![tactic(auto)]

ghost use Rattle.std.specs.Prelude.{◌≡◌, ◌≤◌, take, drop};
ghost use Rattle.tidy_form.specs.Printed.{weighted};

use tables::vertices::WEIGHT;

// Whether the w of a v, its weight, is written where it is 1.000000 too: Q-11, "the old form stays as a choice that the caller names".
#[derive(Clone, Copy)]
pub enum Weights {
    WhenNeeded,
    Always,
}

// How many numbers of a record are written: without its fourth, the weight, where that is 1.000000 and the choice leaves it off.
pub fn weighted_count(weights: Weights, values: &[i32], width: usize, first: usize) -> usize
    requires { (width ≤ 4) × (first ≤ 17179869180) }
    ensures { take result (drop first values.now) ≡ weighted weights (take width (drop first values.now)) }
{
    match weights {
        Weights::Always => width,
        Weights::WhenNeeded => {
            if width == 4 && tables::entry_in(values, first + 3, 0) == WEIGHT {
                3
            } else {
                width
            }
        }
    }
}
