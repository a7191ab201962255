ghost use Rattle.std.specs.Prelude.{◌≡◌, true, ◌&&◌, ◌+◌, ◌≤◌, length, get_or, pos};
ghost use Rattle.record_rules.specs.Numbers.{in_range, all_below, run_in_range};

use tables::limits;

// Whether x is at most 2,000,000,000 millionths from zero.
#[tactic(auto, unfolding(crate::specs::Numbers::in_range))]
pub fn in_range(x: i32) -> bool
    ensures { result ≡ in_range x }
{
    limits::LEAST_NUMBER <= x && x <= limits::MOST_NUMBER
}

// The same of four numbers, with no branch between them.
pub fn four_in_range(a: i32, b: i32, c: i32, d: i32) -> bool
    ensures { result ≡ (in_range a && in_range b && in_range c && in_range d) }
{
    in_range(a) & in_range(b) & in_range(c) & in_range(d)
}

// How many of `count` numbers from `first` on are in range, four at a time.
// Stays a while: the place goes on by four, and a for over fours of them leaves the odd numbers to be taken apart, which is no plainer.
fn fours_in_range(values: &[i32], first: usize, count: usize) -> usize
    requires { first + count ≤ length values.now }
    ensures { (result ≤ count) × (all_below result (λ j. in_range (get_or values.now (first + j) (pos 0))) ≡ true) }
{
    let mut k = 0;
    while 4 <= count - k {
        let at = first + k;
        if !four_in_range(values[at], values[at + 1], values[at + 2], values[at + 3]) {
            return k;
        }
        k += 4;
    }
    k
}

// Whether `count` numbers from `first` on are lent and in range.
#[tactic(auto, unfolding(crate::specs::Numbers::run_in_range))]
pub fn run_in_range(values: &[i32], first: usize, count: usize) -> bool
    ensures { result ≡ run_in_range values.now first count }
{
    if values.len() < count || values.len() - count < first {
        return false;
    }
    for k in fours_in_range(values, first, count)..count {
        if !in_range(values[first + k]) {
            return false;
        }
    }
    true
}
