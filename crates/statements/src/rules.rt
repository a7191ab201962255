ghost use Rattle.std.specs.Prelude.{◌≡◌};
ghost use Rattle.statements.specs.Rules.{vertex_count, fewest, parts, range_words, fewest_controls, control_form, allowed_by, counted_by, fewest_by, most_by, form_by};
ghost use Rattle.statements.specs.Numbered.{free_numbered};

use crate::{Free, Shape, VertexKind};
use tables::kinds;

// Which parts a corner may have besides v.
#[derive(Clone, Copy)]
pub struct Parts {
    pub vt: bool,
    pub vn: bool,
}

// What a word has to be.
#[derive(Clone, Copy)]
pub enum WordForm {
    Number,
    Corner(Parts),
    Control,
    Curve,
    Direction,
    Type,
    Rational,
    Degree,
    Smoothing,
    Name,
    Anything,
}

// Where a statement may stand: outside a body, in one, in a surface's; a parm along v in a surface's alone.
#[derive(Clone, Copy)]
pub enum Standing {
    Outside,
    Body,
    Surface,
    Parameters,
}

// How many words may follow the keyword.
#[derive(Clone, Copy)]
pub enum Count {
    Any,
    AtLeast(usize),
    Within { least: usize, most: usize },
    Exactly(usize),
    Threes,
}

// The forms of a line's words: one for all; a range and then controls; a direction and then numbers; two numbers and a curve, again and again; a type, and
// rat before it.
#[derive(Clone, Copy)]
pub enum Forms {
    All(WordForm),
    Range { words: usize, control: WordForm },
    Parameters,
    Loop,
    Type,
}

// What is held against a line whose words have their forms: 9 of corners; 9, 11 and 12 of a body's element; 11, 12 and 13 of a body at its end.
#[derive(Clone, Copy)]
pub enum Held {
    Nothing,
    Corners(Parts),
    Body(Free),
    End,
}

#[derive(Clone, Copy)]
pub struct Rules {
    pub standing: Standing,
    pub count: Count,
    pub forms: Forms,
    pub held: Held,
}

// "v 3 or 4; vt, vp 1 to 3; vn 3".
pub fn vertex_count(kind: VertexKind) -> Count
    ensures { result ≡ vertex_count kind }
{
    match kind {
        VertexKind::Geometric => Count::Within { least: 3, most: 4 },
        VertexKind::Texture => Count::Within { least: 1, most: 3 },
        VertexKind::Normal => Count::Exactly(3),
        VertexKind::Parametric => Count::Within { least: 1, most: 3 },
    }
}

// "p 1 or more; l 2 or more; f 3 or more".
pub fn fewest_corners(shape: Shape) -> usize
    ensures { result ≡ fewest shape }
{
    match shape {
        Shape::Point => 1,
        Shape::Line => 2,
        Shape::Face => 3,
    }
}

// "p and curv are v; l is v or v/vt; f and surf are v, v/vt, v//vn or v/vt/vn".
pub fn corner_parts(shape: Shape) -> Parts
    ensures { result ≡ parts shape }
{
    match shape {
        Shape::Point => Parts {
            vt: false,
            vn: false,
        },
        Shape::Line => Parts {
            vt: true,
            vn: false,
        },
        Shape::Face => Parts { vt: true, vn: true },
    }
}

// "curv 4 or more (range, controls); curv2 2 or more; surf 5 or more": a range is two numbers, a surface's four.
pub fn range_words(free: Free) -> usize
    ensures { result ≡ range_words free }
{
    match free {
        Free::Curve => 2,
        Free::Curve2 => 0,
        Free::Surface => 4,
    }
}

pub fn fewest_controls(free: Free) -> usize
    ensures { result ≡ fewest_controls free }
{
    match free {
        Free::Curve => 2,
        Free::Curve2 => 2,
        Free::Surface => 1,
    }
}

pub fn control_form(free: Free) -> WordForm
    ensures { result ≡ control_form free }
{
    match free {
        Free::Curve => WordForm::Corner(Parts {
            vt: false,
            vn: false,
        }),
        Free::Curve2 => WordForm::Control,
        Free::Surface => WordForm::Corner(Parts { vt: true, vn: true }),
    }
}

// Whether the statement may stand in the body of an element of the kind, 0 for none; `v` is said by a parm along v.
pub fn allowed(standing: Standing, kind: u32, v: bool) -> bool
    ensures { result ≡ allowed_by standing (free_numbered kind) v }
{
    match standing {
        Standing::Outside => kind == 0,
        Standing::Body => kind != 0,
        Standing::Surface => kind == kinds::SURFACE,
        Standing::Parameters => {
            if kind == 0 {
                return false;
            }
            if kind == kinds::SURFACE {
                return true;
            }
            !v
        }
    }
}

// Whether as many words may follow the keyword.
pub fn counted(count: Count, words: usize) -> bool
    ensures { result ≡ counted_by count words }
{
    match count {
        Count::Any => true,
        Count::AtLeast(least) => least <= words,
        Count::Within { least, most } => {
            if words < least {
                return false;
            }
            words <= most
        }
        Count::Exactly(number) => words == number,
        Count::Threes => {
            if words == 0 {
                return false;
            }
            words % 3 == 0
        }
    }
}

// The fewest words that the count lets in.
pub fn fewest_words(count: Count) -> usize
    ensures { result ≡ fewest_by count }
{
    match count {
        Count::Any => 0,
        Count::AtLeast(least) => least,
        Count::Within { least, most: _ } => least,
        Count::Exactly(number) => number,
        Count::Threes => 3,
    }
}

// The most words that the count lets in; `all` where it sets no most.
pub fn most_words(count: Count, all: usize) -> usize
    ensures { result ≡ most_by count all }
{
    match count {
        Count::Any => all,
        Count::AtLeast(_) => all,
        Count::Within { least: _, most } => most,
        Count::Exactly(number) => number,
        Count::Threes => all,
    }
}

// The form of word `index`, from 0, of `words`.
pub fn form_at(forms: Forms, words: usize, index: usize) -> WordForm
    ensures { result ≡ form_by forms words index }
{
    match forms {
        Forms::All(form) => form,
        Forms::Range {
            words: range,
            control,
        } => {
            if index < range {
                return WordForm::Number;
            }
            control
        }
        Forms::Parameters => {
            if index == 0 {
                return WordForm::Direction;
            }
            WordForm::Number
        }
        Forms::Loop => {
            if index % 3 == 2 {
                return WordForm::Curve;
            }
            WordForm::Number
        }
        Forms::Type => {
            if words == 0 {
                return WordForm::Rational;
            }
            if index == words - 1 {
                return WordForm::Type;
            }
            WordForm::Rational
        }
    }
}
