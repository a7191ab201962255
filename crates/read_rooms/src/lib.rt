// How many entries of each table a text can need: one pass over its bytes, before it is read.
#![tactic(auto)]

ghost use Rattle.std.specs.Prelude.{◌≡◌, ◌+◌, ◌*◌, ◌≤◌, ◌<◌, length};
ghost use Rattle.text.specs.Rest.{rest_at};
ghost use Rattle.read_rooms.specs.Rooms.{no_room, both, element_room, body_room, kind_room, carried_room, room_for, rooms_of_text};
ghost use Rattle.read_rooms.specs.Line.{vertex_room, counted_of};
ghost use Rattle.read_rooms.specs.Claims.{total};

use statements::rules::range_words;
use statements::{Carried, Statement, VertexKind};
use tables::widths;
use text::{AfterBlanks, Parsed};

// Entries of the eleven tables.
#[repr(C)]
#[derive(Clone, Copy)]
pub struct Rooms {
    pub v: usize,
    pub vt: usize,
    pub vn: usize,
    pub vp: usize,
    pub corners: usize,
    pub elements: usize,
    pub bodies: usize,
    pub ranges: usize,
    pub parameters: usize,
    pub loops: usize,
    pub spans: usize,
}

fn no_room() -> Rooms
    ensures { result ≡ no_room }
{
    Rooms {
        v: 0,
        vt: 0,
        vn: 0,
        vp: 0,
        corners: 0,
        elements: 0,
        bodies: 0,
        ranges: 0,
        parameters: 0,
        loops: 0,
        spans: 0,
    }
}

// The room of two together, which is little enough for no sum to wrap.
fn both(a: Rooms, b: Rooms) -> Rooms
    requires { total a + total b ≤ 1000000000 }
    ensures { result ≡ both a b }
{
    Rooms {
        v: a.v + b.v,
        vt: a.vt + b.vt,
        vn: a.vn + b.vn,
        vp: a.vp + b.vp,
        corners: a.corners + b.corners,
        elements: a.elements + b.elements,
        bodies: a.bodies + b.bodies,
        ranges: a.ranges + b.ranges,
        parameters: a.parameters + b.parameters,
        loops: a.loops + b.loops,
        spans: a.spans + b.spans,
    }
}

fn vertex_room(v: usize, vt: usize, vn: usize, vp: usize) -> Rooms
    ensures { result ≡ vertex_room v vt vn vp }
{
    Rooms {
        v,
        vt,
        vn,
        vp,
        ..no_room()
    }
}

fn element_room(bodies: usize, corners: usize) -> Rooms
    requires { (bodies ≤ 1) × (corners ≤ 16777216) }
    ensures { result ≡ element_room bodies corners }
{
    Rooms {
        corners: widths::CORNER * corners,
        elements: widths::ELEMENT,
        bodies: widths::BODY * bodies,
        ranges: widths::RANGE * bodies,
        ..no_room()
    }
}

fn body_room(parameters: usize, parts: usize) -> Rooms
    requires { parts ≤ 16777216 }
    ensures { result ≡ body_room parameters parts }
{
    Rooms {
        parameters,
        loops: widths::LOOP * parts,
        spans: widths::SPAN * parts,
        ..no_room()
    }
}

fn kind_room(kind: VertexKind) -> Rooms
    ensures { result ≡ kind_room kind }
{
    match kind {
        VertexKind::Geometric => vertex_room(widths::V, 0, 0, 0),
        VertexKind::Texture => vertex_room(0, widths::VT, 0, 0),
        VertexKind::Normal => vertex_room(0, 0, widths::VN, 0),
        VertexKind::Parametric => vertex_room(0, 0, 0, widths::VP),
    }
}

fn carried_room(statement: Carried, count: usize) -> Rooms
    requires { count ≤ 16777216 }
    ensures { result ≡ carried_room statement count }
{
    match statement {
        Carried::Vertex(kind) => kind_room(kind),
        Carried::Element(_) => element_room(0, count),
        Carried::Body(free) => element_room(1, count.saturating_sub(range_words(free))),
        Carried::Parameters => body_room(count.saturating_sub(1), 0),
        Carried::Trim => body_room(0, count / 3),
        Carried::Hole => body_room(0, count / 3),
        Carried::End => no_room(),
        Carried::BodyType => no_room(),
        Carried::Degree => no_room(),
        Carried::Group => no_room(),
        Carried::Smoothing => no_room(),
        Carried::Material => no_room(),
        Carried::PassedOver => no_room(),
    }
}

// What a line of that statement can need, with so many words after its keyword.
fn room_for(statement: Statement, count: usize) -> Rooms
    requires { count ≤ 16777216 }
    ensures { result ≡ room_for statement count }
{
    match statement {
        Statement::Carried(carried) => carried_room(carried, count),
        Statement::Refused => no_room(),
        Statement::Unknown => no_room(),
    }
}

// The room of the line that starts at `at`, and where the next line starts; none where a byte of it is not allowed.
fn line_at(text: &[u8], at: usize) -> Option<Parsed<Rooms>>
    requires { (at ≤ length text.now) × (length text.now ≤ 16777216) }
    ensures { result ≡ counted_of (rest_at text.now at) }
{
    match text::skip_blanks(text, at) {
        AfterBlanks::End(next) => Some(Parsed {
            value: no_room(),
            next,
        }),
        AfterBlanks::Bad(_) => None,
        AfterBlanks::Start(p) => {
            let keyword = keywords::keyword_at(text, p);
            match text::scan_line(text, text::word_end(text, p)) {
                Ok(words) => Some(Parsed {
                    value: room_for(keyword.statement, words.value),
                    next: words.next,
                }),
                Err(_) => None,
            }
        }
    }
}

// All lines of a text that is not too long.
fn rooms_of_lines(text: &[u8]) -> Rooms
    requires { length text.now ≤ 16777216 }
    ensures { result ≡ rooms_of_text text.now }
{
    let mut rooms = no_room();
    let mut at: usize = 0;
    // No range counts the places: each line ends where it is scanned to.
    while at < text.len() {
        let Some(line) = line_at(text, at) else {
            return rooms;
        };
        rooms = both(rooms, line.value);
        at = line.next;
    }
    rooms
}

// How many entries of each table the text can need: lent at least these, `read` never answers 14. All 0 for a text over 16,777,216 bytes, which is refused.
pub fn rooms_of(text: &[u8]) -> Rooms
    ensures { result ≡ rooms_of_text text.now }
{
    if 16_777_216 < text.len() {
        return no_room();
    }
    rooms_of_lines(text)
}
