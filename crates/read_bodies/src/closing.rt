// The end of a body: its parameters held against its controls and ranges, then stored with its record.
ghost use Rattle.std.specs.Prelude.{◌≡◌, ◌++◌, true, cond, ◌+◌, ◌*◌, ◌-◌, ◌≤◌, ◌<◌, length, take, eqb};
ghost use Rattle.std.proofs.lemmas.List.Edits.{sets};
ghost use Rattle.parameter_order.specs.Stepping.{walked};
ghost use Rattle.tables.specs.Records.{curve2_kind};
ghost use Rattle.tables.specs.Rows.{body_numbers, range_numbers};
ghost use Rattle.model.specs.Layout.{first_part};
ghost use Rattle.read_bodies.specs.Numbers.{numbers_at};
ghost use Rattle.read_bodies.specs.Closing.{parm_of, complete_of, agree_of, body_for, open_body_in, SettledIs, BodyCheckIs, StoredIs, stored_body, ClosedIs};

use crate::numbers::{NextNumber, count_numbers, next_number};
use basis::{curve_count, surface_count};
use parameter_order::{Order, Requirement, holds, no_order, requirement_of, step};
use read_state::{Form, Open};
use refusals::Reason;
use table_store::put;
use tables::{Body, Used, kinds, widths};

// How many parameters a body has that nothing is held against, and its range along u.
#[derive(Clone, Copy)]
pub struct Checked {
    pub u: u32,
    pub v: u32,
    pub start: i32,
    pub end: i32,
}

// How many parameters along u and along v were stored.
#[derive(Clone, Copy)]
pub struct Closed {
    pub u: u32,
    pub v: u32,
}

// How many parameters the last parm of a direction gave: none where its place is 0.
fn parm_count(text: &[u8], at: usize) -> u32
    requires { (at ≤ length text.now) × (length text.now ≤ 16777216) }
    ensures { (result ≡ length (parm_of text.now at)) × (result ≤ 16777216) }
{
    if at == 0 {
        return 0;
    }
    match count_numbers(text, at) {
        Ok(numbers) => numbers.value as u32,
        Err(count) => count as u32,
    }
}

// 11: a curve needs parm u, a surface parm u and parm v.
fn complete(kind: u32, u: u32, v: u32) -> bool
    ensures { result ≡ complete_of kind u v }
{
    u != 0 && (kind != kinds::SURFACE || v != 0)
}

// 12.
fn counts_agree(kind: u32, form: Form, u: u32, v: u32, controls: u32) -> bool
    requires { complete_of kind u v ≡ true }
    ensures { result ≡ agree_of kind form u v controls }
{
    if kind == kinds::SURFACE {
        surface_count(form.basis, form.degree_u, u, form.degree_v, v, controls)
    } else {
        curve_count(form.basis, form.degree_u, u, controls)
    }
}

// The first `count` numbers of a line, judged one after the other, and stored from `first` on as far as there is room.
fn store(
    text: &[u8],
    at: usize,
    count: u32,
    asked: Requirement,
    parameters: &mut [i32],
    first: usize,
) -> Order
    requires { (at ≤ length text.now) × (first ≤ 8589934592) }
    ensures value { result ≡ walked asked (take count (numbers_at text.now at)) }
    ensures parameters_after { parameters.new ≡ sets parameters.old first (take count (numbers_at text.now at)) }
{
    let mut i = at;
    let mut order = no_order();
    for done in 0..count {
        match next_number(text, i) {
            None => return order,
            Some(NextNumber::End(_)) => return order,
            Some(NextNumber::Number(number)) => {
                order = step(asked, done as usize, order, number.value);
                put(parameters, first + done as usize, &[number.value]);
                i = number.next;
            }
        }
    }
    order
}

// A curv2's range is the widest; other kinds state theirs.
fn end_of(kind: u32, widest: i32, stated: i32) -> i32
    ensures { result ≡ cond (eqb kind curve2_kind) widest stated }
{
    if kind == kinds::CURVE2 {
        widest
    } else {
        stated
    }
}

// 13, from what the parameters of each direction came to.
fn settle(
    kind: u32,
    u: u32,
    v: u32,
    along_u: Order,
    along_v: Order,
    start_u: i32,
    end_u: i32,
    start_v: i32,
    end_v: i32,
) -> Result<Checked, Reason>
    ensures { SettledIs kind u v along_u along_v start_u end_u start_v end_v result }
{
    let start = end_of(kind, along_u.low, start_u);
    let end = end_of(kind, along_u.high, end_u);
    if !holds(along_u, start, end) {
        return Err(Reason::ParameterOrder);
    }
    if kind == kinds::SURFACE {
        if !holds(along_v, start_v, end_v) {
            return Err(Reason::ParameterOrder);
        }
    }
    Ok(Checked { u, v, start, end })
}

// 11, 12 and 13, in this order; the parameters are stored, u then v, where 13 is asked.
fn judge(
    u_text: &[u8],
    v_text: &[u8],
    form: Form,
    body: Open,
    start_u: i32,
    end_u: i32,
    start_v: i32,
    end_v: i32,
    parameters: &mut [i32],
    first: u32,
) -> Result<Checked, Reason>
    requires u_at_in_bounds { (body.u_at ≤ length u_text.now) × (length u_text.now ≤ 16777216) }
    requires v_at_in_bounds { (body.v_at ≤ length v_text.now) × (length v_text.now ≤ 16777216) }
    ensures body_check_is { BodyCheckIs (body_for form body.kind (parm_of u_text.now body.u_at) (parm_of v_text.now body.v_at) start_u end_u start_v end_v) body.controls result }
    ensures stored_is { StoredIs parameters.old parameters.new first (parm_of u_text.now body.u_at ++ parm_of v_text.now body.v_at) result }
{
    let u_at = body.u_at;
    let v_at = body.v_at;
    let u = parm_count(u_text, u_at);
    let v = parm_count(v_text, v_at);
    if !complete(body.kind, u, v) {
        return Err(Reason::Incomplete);
    }
    if !counts_agree(body.kind, form, u, v, body.controls) {
        return Err(Reason::ControlCount);
    }
    let at = first as usize;
    let asked_u = requirement_of(form.basis, form.degree_u, u as usize);
    let along_u = store(u_text, u_at, u, asked_u, parameters, at);
    let asked_v = requirement_of(form.basis, form.degree_v, v as usize);
    let along_v = store(v_text, v_at, v, asked_v, parameters, at + u as usize);
    settle(
        body.kind, u, v, along_u, along_v, start_u, end_u, start_v, end_v,
    )
}

// The first loop part of a body that has some, after those before it.
fn first_part(used: u32, parts: u32) -> u32
    requires { parts ≤ used }
    ensures { result ≡ first_part (used - parts) parts }
{
    if parts == 0 { 0 } else { used - parts }
}

// The record of a body at its end: a curv2's range was not known before.
fn stored_body(
    form: Form,
    body: Open,
    used: Used,
    u: u32,
    v: u32,
    start_u: i32,
    end_u: i32,
    start_v: i32,
    end_v: i32,
) -> Body
    requires { body.parts ≤ used.loops }
    ensures { result ≡ stored_body form body used u v start_u end_u start_v end_v }
{
    Body {
        basis: form.basis,
        rational: form.rational,
        degree_u: form.degree_u,
        degree_v: form.degree_v,
        first_parameter: used.parameters,
        count_u: u,
        count_v: v,
        first_loop: first_part(used.loops, body.parts),
        loops: body.parts,
        start_u,
        end_u,
        start_v,
        end_v,
    }
}

// The record of the last of so many bodies.
fn store_record(used: u32, body: Body, bodies: &mut [u32])
    requires { (1 ≤ used) × (9 * used ≤ length bodies.old) }
    ensures { bodies.new ≡ sets bodies.old (9 * (used - 1)) (body_numbers body) }
{
    let row = tables::body_row(body);
    put(bodies, widths::BODY * (used as usize - 1), &row);
}

// Its range.
fn store_range(used: u32, body: Body, ranges: &mut [i32])
    requires { (1 ≤ used) × (4 * used ≤ length ranges.old) }
    ensures { ranges.new ≡ sets ranges.old (4 * (used - 1)) (range_numbers body) }
{
    let row = tables::range_row(body);
    put(ranges, widths::RANGE * (used as usize - 1), &row);
}

// The `end` of an open body: the form is the one in force at its element's line, the degrees those that the body has. The texts hold the last parm line of
// each direction, at the places that `body` has.
pub fn close_body(
    u_text: &[u8],
    v_text: &[u8],
    form: Form,
    body: Open,
    used: Used,
    bodies: &mut [u32],
    ranges: &mut [i32],
    parameters: &mut [i32],
) -> Result<Closed, Reason>
    requires u_at_in_bounds { (body.u_at ≤ length u_text.now) × (length u_text.now ≤ 16777216) }
    requires v_at_in_bounds { (body.v_at ≤ length v_text.now) × (length v_text.now ≤ 16777216) }
    requires le_bodies { (1 ≤ used.bodies) × (9 * used.bodies ≤ length bodies.old) × (4 * used.bodies ≤ length ranges.old) × (body.parts ≤ used.loops) }
    ensures { ClosedIs form body used (open_body_in form body used u_text.now v_text.now ranges.old) bodies.old bodies.new ranges.old ranges.new parameters.old parameters.new result }
{
    let opened = tables::lent_body(bodies, ranges, used.bodies - 1);
    let checked = judge(
        u_text,
        v_text,
        form,
        body,
        opened.start_u,
        opened.end_u,
        opened.start_v,
        opened.end_v,
        parameters,
        used.parameters,
    )?;
    let u = checked.u;
    let v = checked.v;
    if parameters.len() < used.parameters as usize + u as usize + v as usize {
        return Err(Reason::NoTableRoom);
    }
    let closed = stored_body(
        form,
        body,
        used,
        u,
        v,
        checked.start,
        checked.end,
        opened.start_v,
        opened.end_v,
    );
    store_record(used.bodies, closed, bodies);
    store_range(used.bodies, closed, ranges);
    Ok(Closed { u, v })
}
