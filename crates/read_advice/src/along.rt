// The parameters along one direction of the open body, and what its type asks of them.
ghost use Rattle.std.specs.Prelude.{◌≡◌, ◌≤◌, length};
ghost use Rattle.tables.specs.Bodies.{controls, basis_of};

use basis::curve_count;
use parameter_order::{Order, holds, no_order, requirement_of, step};
use read_bodies::numbers::{NextNumber, count_numbers, next_number};
use tables::bases;
use text::Parsed;

// Where the numbers of the last parm line start, 0 where there is none, and how many it has; how many controls the type asks for them; whether a bspline's are
// enough; the number, from 1, of the first parameter that may not stand after the one before it, 0 where all may; the ends of the widest range; the range, and 1
// where all are in order and it stands within the widest.
// Tests are numbers, 1 and 0, since C reads this struct.
#[repr(C)]
#[derive(Clone, Copy)]
pub struct DirectionAdvice {
    pub place: usize,
    pub parameters: u32,
    pub controls: usize,
    pub enough: u32,
    pub wrong: u32,
    pub low: i32,
    pub high: i32,
    pub start: i32,
    pub end: i32,
    pub fits: u32,
}

// 01's table of controls, of any numbers.
fn needed(basis: u32, n: u32, p: u32) -> usize
    ensures { result ≡ controls (basis_of basis) n p }
{
    let n = n as usize;
    let p = p as usize;
    if basis == bases::BEZIER {
        return n * p.saturating_sub(1) + 1;
    }
    if basis == bases::BSPLINE {
        return p.saturating_sub(n).saturating_sub(1);
    }
    if basis == bases::CARDINAL {
        return p + 2;
    }
    (n + 1) * p.saturating_sub(1)
}

// Of no parm.
pub fn no_parameters(basis: u32, degree: u32) -> DirectionAdvice
    ensures { result.controls ≡ controls (basis_of basis) degree result.parameters }
{
    DirectionAdvice {
        place: 0,
        parameters: 0,
        controls: needed(basis, degree, 0),
        enough: 0,
        wrong: 0,
        low: 0,
        high: 0,
        start: 0,
        end: 0,
        fits: 0,
    }
}

// Whether a bspline's controls are enough: as many as are needed then agree.
fn are_enough(basis: u32, n: u32, p: u32, k: usize) -> u32 {
    if p == 0 || 4_294_967_295 < k {
        return 0;
    }
    u32::from(curve_count(basis, n, p, k as u32))
}

fn count_at(text: &[u8], at: usize) -> usize
    requires { at ≤ length text.now }
{
    match count_numbers(text, at) {
        Ok(counted) => counted.value,
        Err(count) => count,
    }
}

#[derive(Clone, Copy)]
struct Judged {
    order: Order,
    wrong: u32,
}

// The number of the first parameter that is not in order, the one judged now being that of number `done`.
fn first_wrong(wrong: u32, fine: bool, done: u32) -> u32 {
    if wrong != 0 || fine { wrong } else { done }
}

// The first `count` numbers of a line, judged one after the other.
fn judge_order(text: &[u8], at: usize, count: u32, basis: u32, degree: u32) -> Judged
    requires { at ≤ length text.now }
{
    let asked = requirement_of(basis, degree, count as usize);
    let mut i = at;
    let mut order = no_order();
    let mut wrong: u32 = 0;
    for done in 0..count {
        let Some(NextNumber::Number(number)) = next_number(text, i) else {
            break;
        };
        order = step(asked, done as usize, order, number.value);
        wrong = first_wrong(wrong, order.fine, done + 1);
        i = number.next;
    }
    Judged { order, wrong }
}

// The number that the line goes on with at `at`, and where it ends; 0 and its place where there is none.
fn number_after(text: &[u8], at: usize) -> Parsed<i32> {
    if at <= text.len() {
        if let Some(NextNumber::Number(number)) = next_number(text, at) {
            return number;
        }
    }
    Parsed { value: 0, next: at }
}

// The range that a body states.
#[derive(Clone, Copy)]
pub struct Range {
    pub u_start: i32,
    pub u_end: i32,
    pub v_start: i32,
    pub v_end: i32,
}

// The range that the line of a body begins with, its keyword at `key`: that along u first; a curv2 states none.
pub fn range_from(text: &[u8], key: usize) -> Range {
    if text.len() < key {
        return Range {
            u_start: 0,
            u_end: 0,
            v_start: 0,
            v_end: 0,
        };
    }
    let u_start = number_after(text, text::word_end(text, key));
    let u_end = number_after(text, u_start.next);
    let v_start = number_after(text, u_end.next);
    let v_end = number_after(text, v_start.next);
    Range {
        u_start: u_start.value,
        u_end: u_end.value,
        v_start: v_start.value,
        v_end: v_end.value,
    }
}

// 01: "A curv2's range is the widest allowed".
fn end_of(widest: bool, end: i32, stated: i32) -> i32 {
    if widest { end } else { stated }
}

// Along a direction whose numbers start at `at`, of that type and degree; the range is stated, or the widest.
pub fn along_direction(
    text: &[u8],
    at: usize,
    basis: u32,
    degree: u32,
    widest: bool,
    stated_start: i32,
    stated_end: i32,
) -> DirectionAdvice
    ensures { result.controls ≡ controls (basis_of basis) degree result.parameters }
{
    if at == 0 || text.len() < at {
        return no_parameters(basis, degree);
    }
    let many = count_at(text, at);
    if 16_777_216 < many {
        return no_parameters(basis, degree);
    }
    let parameters = many as u32;
    let controls = needed(basis, degree, parameters);
    let judged = judge_order(text, at, parameters, basis, degree);
    let order = judged.order;
    let start = end_of(widest, order.low, stated_start);
    let end = end_of(widest, order.high, stated_end);
    DirectionAdvice {
        place: at,
        parameters,
        controls,
        enough: are_enough(basis, degree, parameters, controls),
        wrong: judged.wrong,
        low: order.low,
        high: order.high,
        start,
        end,
        fits: u32::from(holds(order, start, end)),
    }
}
