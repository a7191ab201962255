// What a type asks along one direction of a body: how many controls, in what order its parameters stand, and which range they allow.
#![tactic(auto)]

ghost use Rattle.std.specs.Prelude.{◌≡◌, true, ◌+◌, ◌*◌, ◌≤◌, eqb, length};
ghost use Rattle.tables.specs.Bodies.{enough, controls, low, high, in_order, curve_count, surface_count, basis_of};
ghost use Rattle.basis.specs.Widest.{widest};

use parameter_order::{holds, requirement_of, walk};
use tables::bases;

// Along a direction of p parameters and degree n: whether a bspline's controls are enough.
fn enough(basis: u32, n: u32, p: u32) -> bool
    ensures { result ≡ enough (basis_of basis) n p }
{
    basis != bases::BSPLINE || 2 * n as usize + 2 <= p as usize
}

fn controls(basis: u32, n: u32, p: u32) -> usize
    requires { (1 ≤ p) × (enough (basis_of basis) n p ≡ true) }
    ensures { result ≡ controls (basis_of basis) n p }
{
    let n = n as usize;
    let p = p as usize;
    match basis {
        bases::BEZIER => n * (p - 1) + 1,
        bases::BSPLINE => p - n - 1,
        bases::CARDINAL => p + 2,
        _ => (n + 1) * (p - 1),
    }
}

// Whether a times b is k.
fn product_is(a: usize, b: usize, k: u32) -> bool
    ensures { result ≡ eqb k (a * b) }
{
    match a.checked_mul(b) {
        Some(product) => product == k as usize,
        None => false,
    }
}

#[tactic(auto, unfolding(tables::specs::Bodies::curve_count))]
pub fn curve_count(basis: u32, n: u32, p: u32, k: u32) -> bool
    requires { 1 ≤ p }
    ensures { result ≡ curve_count (basis_of basis) n p k }
{
    enough(basis, n, p) && k as usize == controls(basis, n, p)
}

#[tactic(auto, unfolding(tables::specs::Bodies::surface_count))]
pub fn surface_count(basis: u32, m: u32, p: u32, n: u32, q: u32, k: u32) -> bool
    requires { (1 ≤ p) × (1 ≤ q) }
    ensures { result ≡ surface_count (basis_of basis) m p n q k }
{
    enough(basis, m, p)
        && enough(basis, n, q)
        && product_is(controls(basis, m, p), controls(basis, n, q), k)
}

// The widest range that the parameters allow, and its two ends.
fn low(basis: u32, n: u32, x: &[i32]) -> i32
    requires { (2 ≤ length x.now) × (enough (basis_of basis) n (length x.now) ≡ true) }
    ensures { result ≡ low (basis_of basis) n x.now }
{
    if basis == bases::BSPLINE {
        x[n as usize]
    } else {
        x[0]
    }
}

fn high(basis: u32, n: u32, x: &[i32]) -> i32
    requires { (2 ≤ length x.now) × (enough (basis_of basis) n (length x.now) ≡ true) }
    ensures { result ≡ high (basis_of basis) n x.now }
{
    if basis == bases::BSPLINE {
        x[x.len() - n as usize - 1]
    } else {
        x[x.len() - 1]
    }
}

// 13 along one direction.
pub fn in_order(basis: u32, n: u32, x: &[i32], start: i32, end: i32) -> bool
    requires { (2 ≤ length x.now) × (enough (basis_of basis) n (length x.now) ≡ true) }
    ensures { result ≡ in_order (basis_of basis) n x.now start end }
{
    holds(walk(requirement_of(basis, n, x.len()), x), start, end)
}

// A curv2's range is the widest.
#[tactic(auto, unfolding(crate::specs::Widest::widest))]
pub fn widest(curv2: bool, basis: u32, n: u32, x: &[i32], start: i32, end: i32) -> bool
    requires { (2 ≤ length x.now) × (enough (basis_of basis) n (length x.now) ≡ true) }
    ensures { result ≡ widest curv2 (basis_of basis) n x.now start end }
{
    !curv2 || start <= low(basis, n, x) && high(basis, n, x) <= end
}
