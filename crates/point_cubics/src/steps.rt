ghost use Rattle.std.specs.Prelude.{◌≡◌, ℕ, ◌≤◌, ◌<◌, length, pos, nat_abs, ◌+ℤ◌, ◌-ℤ◌, ◌*ℤ◌};
ghost use Rattle.rounding.specs.Range.{InRange};
ghost use Rattle.point_exact.specs.Directions.{at};
ghost use Rattle.point_cubics.specs.Answers.{cubic, reached};

use rounding::weighted;
use tables::bases;

pub fn is_cubic(basis: u32, degree: u32) -> bool
    ensures { result ≡ cubic basis degree }
{
    basis == bases::BEZIER && degree == 3
}

// 64 times the parameter at j/64 of a segment from s to e.
fn parameter64(s: i32, e: i32, j: u32) -> i64
    requires { InRange s × InRange e × (j ≤ 64) }
    ensures { (result ≡ pos 64 *ℤ s +ℤ pos j *ℤ (e -ℤ s)) × (nat_abs result ≤ 128000000000) }
{
    weighted(s, 64 - j as u64) + weighted(e, j as u64)
}

// Whether there is such a step, and start..end holds it: all times 64.
pub fn is_reached(x: &[i32], start: i32, end: i32, segment: u32, j: u32) -> bool
    requires { ((i : ℕ) → i < length x.now → InRange (at x.now i)) × InRange start × InRange end }
    ensures { result ≡ reached x.now start end segment j }
{
    let g = segment as usize;
    if 64 < j || x.len() < g + 2 {
        return false;
    }
    let here = parameter64(x[g], x[g + 1], j);
    weighted(start, 64) <= here && here <= weighted(end, 64)
}
