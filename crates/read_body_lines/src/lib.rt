// The lines that stand inside a body, each from just after its keyword on: parm, trim, hole, and its end.
#![tactic(auto)]

ghost use Rattle.std.specs.Prelude.{◌≡◌, ◌+◌, ◌<◌};
ghost use Rattle.model.specs.Parse.{parm};
ghost use Rattle.read_body_lines.specs.OpenBody.{keeping, looped, curves_with, closed_with, type_for, degree_for, form_for, body_lent};
ghost use Rattle.read_vertex_lines.specs.Bounds.{InBounds};
ghost use Rattle.read_vertex_lines.specs.Stepping.{QuietStep, LoopStep, EndStep};

use read_bodies::closing::close_body;
use read_bodies::loops::take_loop;
use read_bodies::parm::take_parm;
use read_state::{Form, Open, State};
use read_vertex_lines::LineFault;
use statements::rows::{end_rules, loop_rules, parameter_rules};
use statements::rules::{allowed, counted};
use tables::{Used, bases, kinds, widths};
use text::{AfterBlanks, Parsed, skip_blanks};

// The state with the place of a parm's numbers, which stands for no earlier one of its direction.
fn keeping(along_v: bool, at: usize, state: State) -> State
    ensures { result ≡ keeping along_v at state }
{
    let open = if along_v {
        Open {
            v_at: at,
            ..state.open
        }
    } else {
        Open {
            u_at: at,
            ..state.open
        }
    };
    State { open, ..state }
}

pub fn parm_line(text: &[u8], at: usize, state: State) -> Result<Parsed<State>, LineFault>
    requires { InBounds text.now at state }
    ensures { QuietStep parm text.now at state result }
{
    let rules = parameter_rules();
    if !allowed(rules.standing, state.open.kind, false) {
        return Err(LineFault::Unknown);
    }
    let in_surface = allowed(rules.standing, state.open.kind, true);
    let Some(taken) = take_parm(text, at, in_surface) else {
        return Err(LineFault::Unknown);
    };
    let parm = taken.value;
    Ok(Parsed {
        value: keeping(parm.along_v, parm.numbers_at, state),
        next: taken.next,
    })
}

fn looped(parts: u32, state: State) -> State
    requires { (state.used.loops + parts < 4294967296) × (state.«open».parts + parts < 4294967296) }
    ensures { result ≡ looped parts state }
{
    State {
        used: Used {
            loops: state.used.loops + parts,
            ..state.used
        },
        open: Open {
            parts: state.open.parts + parts,
            ..state.open
        },
        ..state
    }
}

// A trim or, if `hole`, a hole.
pub fn loop_line(
    hole: bool,
    text: &[u8],
    at: usize,
    state: State,
    loops: &mut [u32],
    spans: &mut [i32],
) -> Result<Parsed<State>, LineFault>
    requires { InBounds text.now at state }
    ensures { LoopStep hole text.now at state loops.old loops.new spans.old spans.new result }
{
    let rules = loop_rules();
    let in_surface = allowed(rules.standing, state.open.kind, false);
    if !in_surface {
        return Err(LineFault::Unknown);
    }
    let Some(parts) = take_loop(text, at, hole, state.curves, state.used.loops, loops, spans) else {
        return Err(LineFault::Unknown);
    };
    Ok(Parsed {
        value: looped(parts.value, state),
        next: parts.next,
    })
}

// The degree of a body of that type, from the one in force.
fn degree_for(basis: u32, degree: u32) -> u32
    ensures { result ≡ degree_for basis degree }
{
    if basis == bases::CARDINAL { 3 } else { degree }
}

// The type's number; a body has a type, so that 0 says nothing of it.
fn type_for(basis: u32) -> u32
    ensures { result ≡ type_for basis }
{
    if basis == 0 { bases::BEZIER } else { basis }
}

// The form of a body of that kind, from the one in force.
fn form_of(kind: u32, form: Form) -> Form
    ensures { result ≡ form_for kind form }
{
    let degree_v = if kind == kinds::SURFACE {
        degree_for(form.basis, form.degree_v)
    } else {
        0
    };
    Form {
        basis: type_for(form.basis),
        rational: form.rational,
        degree_u: degree_for(form.basis, form.degree_u),
        degree_v,
    }
}

// Whether the records of the open body, the last of those `used`, stand in tables of those lengths.
fn body_lent(used: u32, bodies: usize, ranges: usize) -> bool
    ensures { result ≡ body_lent used bodies ranges }
{
    widths::BODY * (used as usize) <= bodies && widths::RANGE * (used as usize) <= ranges
}

// How many curv2s there are after the end of a body of that kind.
fn curves_after(kind: u32, curves: u32) -> u32
    requires { curves + 1 < 4294967296 }
    ensures { result ≡ curves_with kind curves }
{
    if kind == kinds::CURVE2 {
        curves + 1
    } else {
        curves
    }
}

// The state after the end of a body with so many parameters along u and v.
fn closed_with(u: u32, v: u32, state: State) -> State
    requires { (state.used.parameters + (u + v) < 4294967296) × (state.curves + 1 < 4294967296) }
    ensures { result ≡ closed_with u v state }
{
    State {
        used: Used {
            parameters: state.used.parameters + (u + v),
            ..state.used
        },
        curves: curves_after(state.open.kind, state.curves),
        open: Open {
            kind: 0,
            controls: 0,
            parts: 0,
            u_at: 0,
            v_at: 0,
        },
        ..state
    }
}

pub fn end_line(
    text: &[u8],
    at: usize,
    state: State,
    bodies: &mut [u32],
    ranges: &mut [i32],
    parameters: &mut [i32],
) -> Result<Parsed<State>, LineFault>
    requires { InBounds text.now at state }
    ensures { EndStep text.now at state bodies.old bodies.new ranges.old ranges.new parameters.old parameters.new result }
{
    let open = state.open;
    let used = state.used;
    let rules = end_rules();
    if !allowed(rules.standing, open.kind, false) {
        return Err(LineFault::Unknown);
    }
    if !body_lent(used.bodies, bodies.len(), ranges.len()) {
        return Err(LineFault::Unknown);
    }
    match skip_blanks(text, at) {
        AfterBlanks::Start(_) => Err(LineFault::Unknown),
        AfterBlanks::Bad(_) => Err(LineFault::Unknown),
        AfterBlanks::End(next) => {
            if !counted(rules.count, 0) {
                return Err(LineFault::Unknown);
            }
            let form = form_of(open.kind, state.form);
            let closed = close_body(text, text, form, open, used, bodies, ranges, parameters)?;
            Ok(Parsed {
                value: closed_with(closed.u, closed.v, state),
                next,
            })
        }
    }
}
