// What the lines before the one that holds a place say, each of which reading took.
ghost use Rattle.std.specs.Prelude.{◌≡◌, ◌+◌, ◌≤◌, ◌<◌, length};
ghost use Rattle.text.specs.Rest.{rest_at};
ghost use Rattle.read_advice.specs.Tally.{start_tally, opening, after_end, after_vertex, after_line, after_words, tally_of};
ghost use Rattle.read_advice.specs.Inner.{vertex_total};

use keyword_rules::carried_of;
use read_bodies::parm::take_parm;
use read_settings::{take_degree, take_type};
use read_state::{Form, kind_of};
use statements::{Carried, VertexKind};
use tables::kinds;
use text::AfterBlanks;

// How many there are so far of what a word may refer to, a curv2 from its end on; the kind of the open body's element, 0 where none is open, and the place of
// its keyword.
#[repr(C)]
#[derive(Clone, Copy)]
pub struct Tally {
    pub v: u32,
    pub vt: u32,
    pub vn: u32,
    pub vp: u32,
    pub curves: u32,
    pub kind: u32,
    pub opened: usize,
}

// The tally, the type and degrees in force, and where the numbers of the open body's last parm lines start, 0 where there was none.
#[derive(Clone, Copy)]
pub struct Said {
    pub tally: Tally,
    pub form: Form,
    pub u_at: usize,
    pub v_at: usize,
}

// What the lines before say, and where the line starts that holds the place.
#[derive(Clone, Copy)]
pub struct Before {
    pub line: usize,
    pub said: Said,
}

pub fn start_tally() -> Tally
    ensures { result ≡ start_tally }
{
    Tally {
        v: 0,
        vt: 0,
        vn: 0,
        vp: 0,
        curves: 0,
        kind: 0,
        opened: 0,
    }
}

fn opening(tally: Tally, kind: u32, key: usize) -> Tally
    ensures { result ≡ opening tally kind key }
{
    Tally {
        kind,
        opened: key,
        ..tally
    }
}

fn ending(tally: Tally) -> Tally
    requires { vertex_total tally ≤ 16777216 }
    ensures { result ≡ after_end tally }
{
    let curves = if tally.kind == kinds::CURVE2 {
        tally.curves + 1
    } else {
        tally.curves
    };
    Tally {
        curves,
        kind: 0,
        opened: 0,
        ..tally
    }
}

fn after_vertex(kind: VertexKind, tally: Tally) -> Tally
    requires { vertex_total tally ≤ 16777216 }
    ensures { result ≡ after_vertex kind tally }
{
    match kind {
        VertexKind::Geometric => Tally {
            v: tally.v + 1,
            ..tally
        },
        VertexKind::Texture => Tally {
            vt: tally.vt + 1,
            ..tally
        },
        VertexKind::Normal => Tally {
            vn: tally.vn + 1,
            ..tally
        },
        VertexKind::Parametric => Tally {
            vp: tally.vp + 1,
            ..tally
        },
    }
}

// The tally after a line of that statement, its keyword at `key`.
fn after_line(carried: Carried, key: usize, tally: Tally) -> Tally
    requires { vertex_total tally ≤ 16777216 }
    ensures { result ≡ after_line carried key tally }
{
    match carried {
        Carried::Vertex(kind) => after_vertex(kind, tally),
        Carried::Body(free) => opening(tally, kind_of(free), key),
        Carried::End => ending(tally),
        _ => tally,
    }
}

// The type and degrees in force after a line of that statement, from just after its keyword on.
fn form_after(text: &[u8], at: usize, carried: Carried, form: Form) -> Form
    requires { at ≤ length text.now }
{
    let taken = match carried {
        Carried::BodyType => take_type(text, at, form),
        Carried::Degree => take_degree(text, at, form),
        _ => None,
    };
    match taken {
        Some(taken) => taken.value,
        None => form,
    }
}

// The same with where the numbers of the last parm lines start.
fn after_keyword(text: &[u8], at: usize, carried: Carried, tally: Tally, said: Said) -> Said
    requires { at ≤ length text.now }
    ensures { result.tally ≡ tally }
{
    let form = form_after(text, at, carried, said.form);
    if tally.kind == 0 {
        return Said {
            tally,
            form,
            u_at: 0,
            v_at: 0,
        };
    }
    let mut after = Said {
        tally,
        form,
        ..said
    };
    if let Carried::Parameters = carried {
        if let Some(taken) = take_parm(text, at, true) {
            let parm = taken.value;
            if parm.along_v {
                after.v_at = parm.numbers_at;
            } else {
                after.u_at = parm.numbers_at;
            }
        }
    }
    after
}

// What is said after the line that starts at `at`.
fn with_line(text: &[u8], at: usize, said: Said) -> Said
    requires { (at ≤ length text.now) × (vertex_total said.tally ≤ 16777216) }
    ensures { result.tally ≡ after_words (rest_at text.now at).words said.tally }
{
    match text::skip_blanks(text, at) {
        AfterBlanks::Start(p) => {
            let keyword = keywords::keyword_at(text, p);
            let carried = carried_of(keyword.statement);
            let end = text::word_end(text, p);
            let tally = after_line(carried, p, said.tally);
            after_keyword(text, end, carried, tally, said)
        }
        AfterBlanks::End(_) => said,
        AfterBlanks::Bad(_) => said,
    }
}

// Nothing is said.
fn start() -> Said
    ensures { result.tally ≡ start_tally }
{
    Said {
        tally: start_tally(),
        form: Form {
            basis: 0,
            rational: 0,
            degree_u: 0,
            degree_v: 0,
        },
        u_at: 0,
        v_at: 0,
    }
}

// All lines before the one that holds the place; of a line with a byte that is not allowed nothing is taken, nor of those after it.
pub fn said_before(text: &[u8], place: usize) -> Before
    requires { length text.now ≤ 16777216 }
    ensures { (result.said.tally ≡ tally_of text.now place) × (result.line ≤ length text.now) }
{
    let mut said = start();
    let mut at: usize = 0;
    // No range counts the places: each line ends where it is scanned to.
    while at < text.len() {
        match text::scan_line(text, at) {
            Err(_) => {
                return Before { line: at, said };
            }
            Ok(words) => {
                let next = words.next;
                if place < next {
                    return Before { line: at, said };
                }
                said = with_line(text, at, said);
                at = next;
            }
        }
    }
    Before { line: at, said }
}
