// 01, "Words after the keyword", "Corner patterns" and "Bodies": the row of rules of each statement. A row without a parameter folds to its numbers where it is
// asked for, so that a reader of lines asks the row and says none of them again.
ghost use Rattle.std.specs.Prelude.{◌≡◌};
ghost use Rattle.statements.specs.Rules.{plain, rules_of};

use crate::rules::{
    Count, Forms, Held, Rules, Standing, WordForm, control_form, corner_parts, fewest_controls,
    fewest_corners, range_words, vertex_count,
};
use crate::{Carried, Free, Shape, VertexKind};

// A statement outside bodies whose words have one form.
fn plain_rules(count: Count, form: WordForm) -> Rules
    ensures { result ≡ plain count form }
{
    Rules {
        standing: Standing::Outside,
        count: count,
        forms: Forms::All(form),
        held: Held::Nothing,
    }
}

pub fn vertex_rules(kind: VertexKind) -> Rules
    ensures { result ≡ rules_of (Carried.Vertex kind) }
{
    plain_rules(vertex_count(kind), WordForm::Number)
}

pub fn element_rules(shape: Shape) -> Rules
    ensures { result ≡ rules_of (Carried.Element shape) }
{
    let parts = corner_parts(shape);
    Rules {
        standing: Standing::Outside,
        count: Count::AtLeast(fewest_corners(shape)),
        forms: Forms::All(WordForm::Corner(parts)),
        held: Held::Corners(parts),
    }
}

pub fn body_rules(free: Free) -> Rules
    ensures { result ≡ rules_of (Carried.Body free) }
{
    let words = range_words(free);
    Rules {
        standing: Standing::Outside,
        count: Count::AtLeast(words + fewest_controls(free)),
        forms: Forms::Range {
            words: words,
            control: control_form(free),
        },
        held: Held::Body(free),
    }
}

pub fn parameter_rules() -> Rules
    ensures { result ≡ rules_of Carried.Parameters }
{
    Rules {
        standing: Standing::Parameters,
        count: Count::AtLeast(3),
        forms: Forms::Parameters,
        held: Held::Nothing,
    }
}

// A trim and a hole have one row.
pub fn loop_rules() -> Rules
    ensures { (result ≡ rules_of Carried.Trim) × (result ≡ rules_of Carried.Hole) }
{
    Rules {
        standing: Standing::Surface,
        count: Count::Threes,
        forms: Forms::Loop,
        held: Held::Nothing,
    }
}

pub fn end_rules() -> Rules
    ensures { result ≡ rules_of Carried.End }
{
    Rules {
        standing: Standing::Body,
        count: Count::Exactly(0),
        forms: Forms::All(WordForm::Anything),
        held: Held::End,
    }
}

pub fn type_rules() -> Rules
    ensures { result ≡ rules_of Carried.BodyType }
{
    Rules {
        standing: Standing::Outside,
        count: Count::Within { least: 1, most: 2 },
        forms: Forms::Type,
        held: Held::Nothing,
    }
}

pub fn degree_rules() -> Rules
    ensures { result ≡ rules_of Carried.Degree }
{
    plain_rules(Count::Within { least: 1, most: 2 }, WordForm::Degree)
}

pub fn group_rules() -> Rules
    ensures { result ≡ rules_of Carried.Group }
{
    plain_rules(Count::Any, WordForm::Name)
}

pub fn smoothing_rules() -> Rules
    ensures { result ≡ rules_of Carried.Smoothing }
{
    plain_rules(Count::Exactly(1), WordForm::Smoothing)
}

pub fn material_rules() -> Rules
    ensures { result ≡ rules_of Carried.Material }
{
    plain_rules(Count::Exactly(1), WordForm::Name)
}

pub fn passed_rules() -> Rules
    ensures { result ≡ rules_of Carried.PassedOver }
{
    plain_rules(Count::Any, WordForm::Anything)
}

pub fn rules_of(statement: Carried) -> Rules
    ensures { result ≡ rules_of statement }
{
    match statement {
        Carried::Vertex(kind) => vertex_rules(kind),
        Carried::Element(shape) => element_rules(shape),
        Carried::Body(free) => body_rules(free),
        Carried::Parameters => parameter_rules(),
        Carried::Trim => loop_rules(),
        Carried::Hole => loop_rules(),
        Carried::End => end_rules(),
        Carried::BodyType => type_rules(),
        Carried::Degree => degree_rules(),
        Carried::Group => group_rules(),
        Carried::Smoothing => smoothing_rules(),
        Carried::Material => material_rules(),
        Carried::PassedOver => passed_rules(),
    }
}
