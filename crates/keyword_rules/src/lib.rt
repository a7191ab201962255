// A keyword's row of rules as numbers, for other languages.
#![tactic(auto)]

ghost use Rattle.std.specs.Prelude.{◌≡◌, drop};
ghost use Rattle.text.specs.Words.{word_of};
ghost use Rattle.keywords.specs.Keywords.{statement_of};
ghost use Rattle.keyword_rules.specs.Asked.{standing_number, multiple_of, corner_number, form_number, limits_of, carried_of, rule_row_of};
ghost use Rattle.keyword_rules.specs.Ranges.{range_in};
ghost use Rattle.statements.specs.Rules.{rules_of};

use statements::rows::rules_of;
use statements::rules::{
    Count, Forms, Parts, Standing, WordForm, fewest_words, form_at, most_words,
};
use statements::{Carried, Statement};

// Where the statement may stand; how many words follow the keyword, at least, at most, and a multiple of how many; the form that a word has to have, and the
// least and the greatest value that it may have.
#[repr(C)]
#[derive(Clone, Copy)]
pub struct RuleRow {
    pub standing: u32,
    pub least: usize,
    pub most: usize,
    pub multiple: usize,
    pub form: u32,
    pub low: i32,
    pub high: i32,
}

#[derive(Clone, Copy)]
pub struct Limits {
    pub low: i32,
    pub high: i32,
}

// As many words as a text can have, where a count has no end.
const MOST: usize = 16_777_216;

fn standing_number(standing: Standing) -> u32
    ensures { result ≡ standing_number standing }
{
    match standing {
        Standing::Outside => 0,
        Standing::Body => 1,
        Standing::Surface => 2,
        Standing::Parameters => 3,
    }
}

// Of how many the number of words is a multiple.
fn multiple_of(count: Count) -> usize
    ensures { result ≡ multiple_of count }
{
    match count {
        Count::Any => 1,
        Count::AtLeast(_) => 1,
        Count::Within { least: _, most: _ } => 1,
        Count::Exactly(_) => 1,
        Count::Threes => 3,
    }
}

fn corner_number(parts: Parts) -> u32
    ensures { result ≡ corner_number parts }
{
    if parts.vn {
        return 4;
    }
    if parts.vt {
        return 3;
    }
    2
}

fn form_number(form: WordForm) -> u32
    ensures { result ≡ form_number form }
{
    match form {
        WordForm::Anything => 0,
        WordForm::Number => 1,
        WordForm::Corner(parts) => corner_number(parts),
        WordForm::Control => 5,
        WordForm::Curve => 6,
        WordForm::Direction => 7,
        WordForm::Type => 8,
        WordForm::Rational => 9,
        WordForm::Degree => 10,
        WordForm::Smoothing => 11,
        WordForm::Name => 12,
    }
}

fn limits_from(low: i32, high: i32) -> Limits
    ensures { result ≡ record { low = low; high = high } }
{
    Limits { low, high }
}

// The values that a form with limits may have; of a name how many bytes.
fn limits_of(form: WordForm) -> Limits
    ensures { result ≡ limits_of form }
{
    match form {
        WordForm::Anything => limits_from(0, 0),
        WordForm::Number => limits_from(-2_000_000_000, 2_000_000_000),
        WordForm::Corner(_) => limits_from(0, 0),
        WordForm::Control => limits_from(0, 0),
        WordForm::Curve => limits_from(0, 0),
        WordForm::Direction => limits_from(0, 0),
        WordForm::Type => limits_from(0, 0),
        WordForm::Rational => limits_from(0, 0),
        WordForm::Degree => limits_from(1, 20),
        WordForm::Smoothing => limits_from(0, 65_535),
        WordForm::Name => limits_from(1, 255),
    }
}

// The statement whose rules a keyword's line has; a line that is refused by its keyword has the rules of one that is passed over.
pub fn carried_of(statement: Statement) -> Carried
    ensures { result ≡ carried_of statement }
{
    match statement {
        Statement::Carried(carried) => carried,
        Statement::Refused => Carried::PassedOver,
        Statement::Unknown => Carried::PassedOver,
    }
}

// The rules of the keyword that the bytes begin with, and the form of word `index`, from 0, of `words` after it.
pub fn rules_of_keyword(keyword: &[u8], words: usize, index: usize) -> RuleRow
    ensures { result ≡ rule_row_of (carried_of (statement_of (word_of keyword.now))) words index }
{
    let found = keywords::keyword_at(keyword, 0);
    let statement = found.statement;
    let carried = carried_of(statement);
    let rules = rules_of(carried);
    let standing = rules.standing;
    let count = rules.count;
    let forms = rules.forms;
    let form = form_at(forms, words, index);
    let limits = limits_of(form);
    RuleRow {
        standing: standing_number(standing),
        least: fewest_words(count),
        most: most_words(count, MOST),
        multiple: multiple_of(count),
        form: form_number(form),
        low: limits.low,
        high: limits.high,
    }
}

// How many words of a line are a range, before its controls.
fn range_in(forms: Forms) -> usize
    ensures { result ≡ range_in forms }
{
    match forms {
        Forms::All(_) => 0,
        Forms::Range { words, control: _ } => words,
        Forms::Parameters => 0,
        Forms::Loop => 0,
        Forms::Type => 0,
    }
}

// How many words of the line whose keyword stands at `at` are a range, before its controls.
pub fn words_of_range(text: &[u8], at: usize) -> usize
    ensures { result ≡ range_in (rules_of (carried_of (statement_of (word_of (drop at text.now))))).forms }
{
    let found = keywords::keyword_at(text, at);
    let statement = found.statement;
    let rules = rules_of(carried_of(statement));
    let forms = rules.forms;
    range_in(forms)
}
