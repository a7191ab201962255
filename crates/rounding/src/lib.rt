// The one rounding rule, on millionths.
#![tactic(auto)]

ghost use Rattle.std.specs.Prelude.{◌≡◌, ◌*◌, ◌^◌, ◌≤◌, ◌<◌, pos, nat_abs, ◌-ℤ◌, ◌*ℤ◌};
ghost use Rattle.lists.specs.Signs.{with_sign};
ghost use Rattle.rounding.specs.Round.{between, rounded, nearest};
ghost use Rattle.rounding.specs.Range.{InRange};

// k times a.
pub fn weighted(a: i32, k: u64) -> i64
    requires { InRange a × (k ≤ 4000000000) }
    ensures { (result ≡ a *ℤ pos k) × (nat_abs result ≤ 2000000000 * k) }
{
    a as i64 * k as i64
}

// How far n is from zero.
fn size(n: i64) -> u64
    requires { nat_abs n < 2 ^ 63 }
    ensures { result ≡ nat_abs n }
{
    n.unsigned_abs()
}

// m, or -m.
fn with_sign(below: bool, m: u64) -> i32
    requires { m ≤ 2000000000 }
    ensures { (result ≡ with_sign below m) × InRange result }
{
    if below { -(m as i32) } else { m as i32 }
}

// The nearest whole number of m / d, a half going up: 2m + d is at most 16,000,000,004,000,000,000, below 2^64.
fn nearest(m: u64, d: u64) -> u64
    requires { (0 < d) × (d ≤ 4000000000) × (m ≤ 2000000000 * d) }
    ensures { (result ≡ nearest m d) × (result ≤ 2000000000) }
{
    (2 * m + d) / (2 * d)
}

// n / d to the nearest whole number, ties away from zero.
pub fn rounded(n: i64, d: u64) -> i32
    requires { (0 < d) × (d ≤ 4000000000) × (nat_abs n ≤ 2000000000 * d) }
    ensures { (result ≡ rounded n d) × InRange result }
{
    with_sign(n < 0, nearest(size(n), d))
}

// Between a and b at p parts of d.
pub fn between(a: i32, b: i32, p: u64, d: u64) -> i32
    requires { InRange a × InRange b × (p ≤ d) × (0 < d) × (d ≤ 4000000000) }
    ensures { (result ≡ between a b p d) × InRange result }
{
    let n = weighted(a, d - p) + weighted(b, p);
    rounded(n, d)
}

// How far b is from a.
pub fn distance(a: i32, b: i32) -> u64
    requires { InRange a × InRange b }
    ensures { (result ≡ nat_abs (b -ℤ a)) × (result ≤ 4000000000) }
{
    a.abs_diff(b) as u64
}
