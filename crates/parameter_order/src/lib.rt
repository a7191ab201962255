// The parameters along one direction, judged one after the other: by the reader from a parm line's words, by the test of records from the table.
#![tactic(auto)]

ghost use Rattle.std.specs.Prelude.{◌≡◌, ◌-◌, cond, ◌&&◌, leb};
ghost use Rattle.parameter_order.specs.Stepping.{requirement_of, fresh, too_often, followed, step_of, walked, holds_in};

use tables::bases;

// What they are held against: the type, the degree, and the indexes at which the widest range starts and ends.
#[derive(Clone, Copy)]
pub struct Requirement {
    pub basis: u32,
    pub degree: u32,
    pub low_at: usize,
    pub high_at: usize,
}

// What those so far come to: the last, the index from which on its value stands, whether all are in order, and the ends of the widest range as far as they go.
#[derive(Clone, Copy)]
pub struct Order {
    pub previous: i32,
    pub since: usize,
    pub fine: bool,
    pub low: i32,
    pub high: i32,
}

// Of p parameters and degree n.
pub fn requirement_of(basis: u32, n: u32, p: usize) -> Requirement
    ensures { result ≡ requirement_of basis n p }
{
    let n_at = n as usize;
    if basis == bases::BSPLINE {
        Requirement {
            basis,
            degree: n,
            low_at: n_at,
            high_at: p.saturating_sub(n_at + 1),
        }
    } else {
        Requirement {
            basis,
            degree: n,
            low_at: 0,
            high_at: p.saturating_sub(1),
        }
    }
}

// Of no parameters.
pub fn no_order() -> Order
    ensures { result ≡ fresh }
{
    Order {
        previous: 0,
        since: 0,
        fine: true,
        low: 0,
        high: 0,
    }
}

// 02, Q-5, where a greater value follows at index i: whether the last value lies strictly between the ends and has stood more than n times.
#[tactic(auto, unfolding(crate::specs::Stepping::too_often))]
fn too_often(asked: Requirement, i: usize, since: usize, low: i32, previous: i32) -> bool
    ensures { result ≡ too_often asked i since low previous }
{
    // Asked first and apart: as one test of the chain it is worked out for each parameter of a bezier, with all the others.
    if asked.basis != bases::BSPLINE {
        return false;
    }
    let n = asked.degree as usize;
    n < i && since < i - n && i <= asked.high_at && low < previous
}

// Whether b may stand at index i: knots never decrease, other parameters increase.
#[tactic(auto, unfolding(crate::specs::Stepping::followed))]
fn may_follow(asked: Requirement, i: usize, since: usize, low: i32, previous: i32, b: i32) -> bool
    ensures { result ≡ followed asked i since low previous b }
{
    if previous < b {
        i == 0 || !too_often(asked, i, since, low, previous)
    } else {
        i == 0 || asked.basis == bases::BSPLINE && previous <= b
    }
}

// An end of the widest range, at index `at`: the last value until it is reached.
fn end_so_far(at: usize, i: usize, before: i32, b: i32) -> i32
    ensures { result ≡ cond (leb i at) b before }
{
    if i <= at { b } else { before }
}

// The parameter b at index i.
pub fn step(asked: Requirement, i: usize, o: Order, b: i32) -> Order
    ensures { result ≡ step_of asked i o b }
{
    // Worked out whether or not all was fine so far: a test in front of it makes each knot wait for the one before.
    let follows = may_follow(asked, i, o.since, o.low, o.previous, b);
    Order {
        previous: b,
        since: if o.previous < b { i } else { o.since },
        fine: o.fine && follows,
        low: end_so_far(asked.low_at, i, o.low, b),
        high: end_so_far(asked.high_at, i, o.high, b),
    }
}

// The parameters of a table.
pub fn walk(asked: Requirement, x: &[i32]) -> Order
    ensures { result ≡ walked asked x.now }
{
    let mut o = no_order();
    for (i, b) in x.iter().enumerate() {
        o = step(asked, i, o, *b);
    }
    o
}

// 13: all are in order, and the range stands within the widest.
#[tactic(auto, unfolding(crate::specs::Stepping::holds_in))]
pub fn holds(o: Order, start: i32, end: i32) -> bool
    ensures { result ≡ holds_in o start end }
{
    o.fine && o.low <= start && start < end && end <= o.high
}
