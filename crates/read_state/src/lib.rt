// What is in force while a text is read, as the numbers that the records of the tables hold: a type, a degree and a kind go there as they stand here.
#![tactic(auto)]

ghost use Rattle.std.specs.Prelude.{◌≡◌, ◌&&◌, ◌||◌, not, cond, eqb, leb};
ghost use Rattle.model.specs.Layout.{free_number};

use statements::Free;
use tables::{NameRun, Used, bases, kinds};

// Where the names in force stand in the text, and the smoothing.
#[derive(Clone, Copy)]
pub struct Names {
    pub group: NameRun,
    pub material: NameRun,
    pub smoothing: u32,
}

// cstype and deg: a type's number, 0 where none is set; degrees, 0 for none.
#[derive(Clone, Copy)]
pub struct Form {
    pub basis: u32,
    pub rational: u32,
    pub degree_u: u32,
    pub degree_v: u32,
}

// The body that has no end yet: its element's kind, 0 where there is none; its controls; its loop parts; where the numbers of its last parm lines start,
// 0 where there was none.
#[derive(Clone, Copy)]
pub struct Open {
    pub kind: u32,
    pub controls: u32,
    pub parts: u32,
    pub u_at: usize,
    pub v_at: usize,
}

#[derive(Clone, Copy)]
pub struct State {
    pub used: Used,
    pub curves: u32,
    pub names: Names,
    pub form: Form,
    pub open: Open,
}

// The number that stands for the kind of a body's element.
pub fn kind_of(free: Free) -> u32
    ensures { result ≡ free_number free }
{
    match free {
        Free::Curve => kinds::CURVE,
        Free::Curve2 => kinds::CURVE2,
        Free::Surface => kinds::SURFACE,
    }
}

// Whether a type is set and the degrees that it needs; 01: "Cardinal needs no deg".
pub fn in_force(surface: bool, form: Form) -> bool
    ensures { result ≡ (not (eqb form.basis 0) && (eqb form.basis 3 || cond surface (leb 1 form.degree_u && leb 1 form.degree_v) (leb 1 form.degree_u))) }
{
    let degrees = form.degree_u != 0 && (!surface || form.degree_v != 0);
    form.basis != 0 && (form.basis == bases::CARDINAL || degrees)
}
