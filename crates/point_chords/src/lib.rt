// The tests of a chord, over the numbers of one axis.
#![tactic(auto)]

ghost use Rattle.std.specs.Prelude.{◌≡◌};
ghost use Rattle.point_chords.specs.Chords.{middle, near, short_interval};

// The middle, rounded down: `/` rounds towards zero, so what it halves is raised above zero first.
pub fn middle_of(a: i32, b: i32) -> i32
    ensures { result ≡ middle a b }
{
    let raised = a as i64 + b as i64 + 4294967296;
    (raised / 2 - 2147483648) as i32
}

pub fn is_short(a: i32, b: i32) -> bool
    ensures { result ≡ short_interval a b }
{
    b as i64 - a as i64 <= 1
}

// Whether twice m is within twice the tolerance of p and q together; their doubles pass 32 bits.
pub fn is_near(tolerance: i32, p: i32, m: i32, q: i32) -> bool
    ensures { result ≡ near tolerance p m q }
{
    let room = 2 * tolerance as i64;
    let off = 2 * m as i64 - (p as i64 + q as i64);
    -room <= off && off <= room
}
