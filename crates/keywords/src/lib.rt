// The spellings of keywords and of the fixed words after them, one table each, and what a word of a text finds there.
#![tactic(auto)]

ghost use Rattle.std.specs.Prelude.{◌≡◌, cond, Some, None, ◌+◌, ◌≤◌, length, drop};
ghost use Rattle.std.proofs.lemmas.List.Edits.{sets};
ghost use Rattle.lists.specs.Lists.{same};
ghost use Rattle.text.specs.Words.{word_of};
ghost use Rattle.text.specs.Rest.{end_of};
ghost use Rattle.spellings.specs.Rows.{Finds, found_by, kind_at, spelling_at, fitting};
ghost use Rattle.keywords.specs.Keywords.{keywords, keyword_of, letter_of};
ghost use Rattle.keywords.specs.Lookup.{table_of_keywords, keyword_at, of_letter, table_of_arguments, argument_at, of_sign};
ghost use Rattle.keywords.specs.Arguments.{arguments, argument_bytes, sign_of};

use spellings::{Found, WIDTH, copy_word, row_at, row_of, same_word, write_row};
use statements::{Carried, Free, Shape, Statement, VertexKind};

pub const KEYWORD_ROWS: usize = 44;

const ARGUMENT_ROWS: usize = 9;

const OFF_ROW: usize = 8;

// Every keyword, in the order of the appendix's "File structure", then as the appendix comes to them: A to S are stored, - is passed over, ! refused.
static KEYWORDS: [u8; 528] = *b"\
    v          A\
    vt         B\
    vn         C\
    vp         D\
    cstype     E\
    deg        F\
    bmat       !\
    step       !\
    p          G\
    l          H\
    f          I\
    curv       J\
    curv2      K\
    surf       L\
    parm       M\
    trim       N\
    hole       O\
    scrv       !\
    sp         !\
    end        P\
    con        !\
    g          Q\
    s          R\
    mg         -\
    o          -\
    bevel      -\
    c_interp   -\
    d_interp   -\
    lod        -\
    usemtl     S\
    mtllib     -\
    shadow_obj -\
    trace_obj  -\
    ctech      -\
    stech      -\
    call       !\
    csh        !\
    fo         !\
    usemap     -\
    bsp        !\
    bzp        !\
    cdc        !\
    cdp        !\
    res        !";

// The fixed words after a keyword, as the appendix comes to them.
static ARGUMENTS: [u8; 108] = *b"\
    rat        A\
    bmatrix    B\
    bezier     C\
    bspline    D\
    cardinal   E\
    taylor     F\
    u          G\
    v          H\
    off        I";

// A keyword's statement, and where its word ends. Not a `Parsed`: an unknown word's end is not looked for, and its place stands for it, so reading goes on elsewhere.
#[derive(Clone, Copy)]
pub struct Keyword {
    pub statement: Statement,
    pub end: usize,
}

#[derive(Clone, Copy)]
pub enum Argument {
    Rational,
    BasisMatrix,
    Bezier,
    Bspline,
    Cardinal,
    Taylor,
    DirectionU,
    DirectionV,
    Off,
    Other,
}

// The tables, whose bytes are looked at here alone. From here on the functions on keywords and on arguments go in pairs: each is a line or two over one function of
// spellings that both share, and one function over both would need a trait with each table, its rows and the laws between them, which is longer.
pub fn keyword_table() -> &'static [u8; 528]
    ensures { result.now ≡ table_of_keywords }
{
    &KEYWORDS
}

pub fn argument_table() -> &'static [u8; 108]
    ensures { result.now ≡ table_of_arguments }
{
    &ARGUMENTS
}

#[tactic(auto, unfolding(crate::specs::Keywords::keywords, crate::specs::Lookup::of_letter))]
fn statement_of(letter: u8) -> Statement
    ensures { result ≡ of_letter letter }
{
    match letter {
        b'A' => Statement::Carried(Carried::Vertex(VertexKind::Geometric)),
        b'B' => Statement::Carried(Carried::Vertex(VertexKind::Texture)),
        b'C' => Statement::Carried(Carried::Vertex(VertexKind::Normal)),
        b'D' => Statement::Carried(Carried::Vertex(VertexKind::Parametric)),
        b'E' => Statement::Carried(Carried::BodyType),
        b'F' => Statement::Carried(Carried::Degree),
        b'G' => Statement::Carried(Carried::Element(Shape::Point)),
        b'H' => Statement::Carried(Carried::Element(Shape::Line)),
        b'I' => Statement::Carried(Carried::Element(Shape::Face)),
        b'J' => Statement::Carried(Carried::Body(Free::Curve)),
        b'K' => Statement::Carried(Carried::Body(Free::Curve2)),
        b'L' => Statement::Carried(Carried::Body(Free::Surface)),
        b'M' => Statement::Carried(Carried::Parameters),
        b'N' => Statement::Carried(Carried::Trim),
        b'O' => Statement::Carried(Carried::Hole),
        b'P' => Statement::Carried(Carried::End),
        b'Q' => Statement::Carried(Carried::Group),
        b'R' => Statement::Carried(Carried::Smoothing),
        b'S' => Statement::Carried(Carried::Material),
        b'-' => Statement::Carried(Carried::PassedOver),
        b'!' => Statement::Refused,
        _ => Statement::Unknown,
    }
}

#[tactic(auto, unfolding(crate::specs::Arguments::arguments, crate::specs::Lookup::of_sign))]
fn argument_of(letter: u8) -> Argument
    ensures { result ≡ of_sign letter }
{
    match letter {
        b'A' => Argument::Rational,
        b'B' => Argument::BasisMatrix,
        b'C' => Argument::Bezier,
        b'D' => Argument::Bspline,
        b'E' => Argument::Cardinal,
        b'F' => Argument::Taylor,
        b'G' => Argument::DirectionU,
        b'H' => Argument::DirectionV,
        b'I' => Argument::Off,
        _ => Argument::Other,
    }
}

// The row that the word at `at` finds, by a walk of the table (02, Q-4).
pub fn keyword_row(text: &[u8], at: usize) -> Found
    ensures { (result ≡ found_by keywords (word_of (drop at text.now)) at) × Finds keywords (word_of (drop at text.now)) result.row }
{
    if text.len() <= at {
        return Found {
            row: KEYWORD_ROWS,
            end: at,
        };
    }
    row_at(text, at, keyword_table(), KEYWORD_ROWS)
}

pub fn argument_row(text: &[u8], at: usize) -> Found
    ensures { (result ≡ found_by arguments (word_of (drop at text.now)) at) × Finds arguments (word_of (drop at text.now)) result.row }
{
    if text.len() <= at {
        return Found {
            row: ARGUMENT_ROWS,
            end: at,
        };
    }
    row_at(text, at, argument_table(), ARGUMENT_ROWS)
}

// The letter of a row of the keywords, a blank past the last.
pub fn row_letter(row: usize) -> u8
    ensures { of_letter result ≡ kind_at Statement.Unknown keywords row }
{
    if row < KEYWORD_ROWS {
        return keyword_table()[WIDTH * row + 11];
    }
    b' '
}

// The same of the arguments.
fn row_sign(row: usize) -> u8
    ensures { of_sign result ≡ kind_at Argument.Other arguments row }
{
    if row < ARGUMENT_ROWS {
        return argument_table()[WIDTH * row + 11];
    }
    b' '
}

// The statement that the word at `at` is the keyword of: the kind of the row that it finds.
pub fn keyword_at(text: &[u8], at: usize) -> Keyword
    ensures { result ≡ keyword_at text.now at }
{
    let found = keyword_row(text, at);
    Keyword {
        statement: statement_of(row_letter(found.row)),
        end: found.end,
    }
}

// The argument that the word at `at` is.
pub fn argument_at(text: &[u8], at: usize) -> Argument
    ensures { result ≡ argument_at text.now at }
{
    let found = argument_row(text, at);
    argument_of(row_sign(found.row))
}

// Where the word at `at` ends if it is off.
pub fn off_end(text: &[u8], at: usize) -> Option<usize>
    ensures { result ≡ cond (same (word_of (drop at text.now)) (argument_bytes Argument.Off)) (Some (end_of text.now at)) None }
{
    same_word(text, at, argument_table(), WIDTH * OFF_ROW)
}

fn vertex_letter(kind: VertexKind) -> u8
    ensures { result ≡ letter_of (Statement.Carried (Carried.Vertex kind)) }
{
    match kind {
        VertexKind::Geometric => b'A',
        VertexKind::Texture => b'B',
        VertexKind::Normal => b'C',
        VertexKind::Parametric => b'D',
    }
}

fn element_letter(shape: Shape) -> u8
    ensures { result ≡ letter_of (Statement.Carried (Carried.Element shape)) }
{
    match shape {
        Shape::Point => b'G',
        Shape::Line => b'H',
        Shape::Face => b'I',
    }
}

fn body_letter(free: Free) -> u8
    ensures { result ≡ letter_of (Statement.Carried (Carried.Body free)) }
{
    match free {
        Free::Curve => b'J',
        Free::Curve2 => b'K',
        Free::Surface => b'L',
    }
}

fn letter_of(statement: Carried) -> u8
    ensures { result ≡ letter_of (Statement.Carried statement) }
{
    match statement {
        Carried::Vertex(kind) => vertex_letter(kind),
        Carried::Element(shape) => element_letter(shape),
        Carried::Body(free) => body_letter(free),
        Carried::Parameters => b'M',
        Carried::Trim => b'N',
        Carried::Hole => b'O',
        Carried::End => b'P',
        Carried::BodyType => b'E',
        Carried::Degree => b'F',
        Carried::Group => b'Q',
        Carried::Smoothing => b'R',
        Carried::Material => b'S',
        Carried::PassedOver => b'-',
    }
}

fn sign_of(argument: Argument) -> u8
    ensures { result ≡ sign_of argument }
{
    match argument {
        Argument::Rational => b'A',
        Argument::BasisMatrix => b'B',
        Argument::Bezier => b'C',
        Argument::Bspline => b'D',
        Argument::Cardinal => b'E',
        Argument::Taylor => b'F',
        Argument::DirectionU => b'G',
        Argument::DirectionV => b'H',
        Argument::Off => b'I',
        Argument::Other => b' ',
    }
}

// How many bytes a statement's keyword has.
pub fn keyword_length(statement: Carried) -> usize
    ensures { result ≡ length (keyword_of statement) }
{
    let table = keyword_table();
    let from = row_of(table, letter_of(statement), KEYWORD_ROWS);
    text::word_end(table, from) - from
}

// A statement's keyword, written to `at` of `out`; the place after it.
pub fn write_keyword(statement: Carried, out: &mut [u8], at: usize) -> usize
    requires { at + length (keyword_of statement) ≤ length out.old }
    ensures { (result ≡ at + length (keyword_of statement)) × (out.new ≡ sets out.old at (keyword_of statement)) }
{
    let table = keyword_table();
    let from = row_of(table, letter_of(statement), KEYWORD_ROWS);
    copy_word(table, from, out, at)
}

pub fn argument_length(argument: Argument) -> usize
    ensures { result ≡ length (argument_bytes argument) }
{
    let table = argument_table();
    let from = row_of(table, sign_of(argument), ARGUMENT_ROWS);
    text::word_end(table, from) - from
}

pub fn write_argument(argument: Argument, out: &mut [u8], at: usize) -> usize
    requires { at + length (argument_bytes argument) ≤ length out.old }
    ensures { (result ≡ at + length (argument_bytes argument)) × (out.new ≡ sets out.old at (argument_bytes argument)) }
{
    let table = argument_table();
    let from = row_of(table, sign_of(argument), ARGUMENT_ROWS);
    copy_word(table, from, out, at)
}

// The spelling of row `row` of the keywords, from 0, written to the front of `out`; how many bytes that are: 0 where there is no such row, or no room.
pub fn keyword_spelling(row: usize, out: &mut [u8]) -> usize
    ensures { (result ≡ length (fitting (length out.old) (spelling_at keywords row))) × (out.new ≡ sets out.old 0 (fitting (length out.old) (spelling_at keywords row))) }
{
    if row < KEYWORD_ROWS {
        return write_row(keyword_table(), WIDTH * row, out);
    }
    0
}

// The same of the arguments.
pub fn argument_spelling(row: usize, out: &mut [u8]) -> usize
    ensures { (result ≡ length (fitting (length out.old) (spelling_at arguments row))) × (out.new ≡ sets out.old 0 (fitting (length out.old) (spelling_at arguments row))) }
{
    if row < ARGUMENT_ROWS {
        return write_row(argument_table(), WIDTH * row, out);
    }
    0
}
