// The refusal of a line that was rejected, found by walking 01's order; once a file.
#![tactic(auto)]

ghost use Rattle.std.specs.Prelude.{◌≡◌, ◌≤◌, length};
ghost use Rattle.text.specs.Rest.{rest_at};
ghost use Rattle.keywords.specs.declared.Argument.TheVariants.{DirectionV};
ghost use Rattle.keywords.specs.Arguments.{is_argument};
ghost use Rattle.model.specs.Parse.{says_v};
ghost use Rattle.read_word_checks.specs.Faults.{refusal_said, seen_by};
ghost use Rattle.read_diagnosis.specs.Lines.{words_fault, line_fault, statement_fault};
ghost use Rattle.read_diagnosis.specs.Diagnosis.{DiagnosisIs};

use keywords::{Argument, argument_at, keyword_at};
use read_state::{Form, State};
use read_word_checks::held::held_fault;
use read_word_checks::tests::Tests;
use read_word_checks::walk::first_fault;
use read_word_checks::word::Seen;
use refusals::{Reason, Refusal};
use statements::rows::rules_of;
use statements::rules::{Forms, Held, allowed, counted};
use statements::{Carried, Statement};
use tables::Corner;
use text::{AfterBlanks, scan_line, skip_blanks, word_end};

// The words of a line from the left, and then what is held against the line.
fn words_fault(
    text: &[u8],
    key: usize,
    at: usize,
    forms: Forms,
    held: Held,
    words: usize,
    form: Form,
    seen: Seen,
    vp: &[i32],
) -> Result<(), Refusal>
    requires { at ≤ length text.now }
    ensures { refusal_said result ≡ words_fault (seen_by seen) vp.now form key forms held words (rest_at text.now at).words }
{
    first_fault(text, at, Tests::Each(forms), words, seen, vp)?;
    held_fault(text, key, at, held, form, seen, vp)
}

fn is_v(argument: Argument) -> bool
    ensures { result ≡ is_argument argument DirectionV }
{
    matches!(argument, Argument::DirectionV)
}

// Whether the line's words from `at` on begin with a parm's direction v.
fn says_v(text: &[u8], at: usize) -> bool
    requires { at ≤ length text.now }
    ensures { result ≡ says_v (rest_at text.now at).words }
{
    match skip_blanks(text, at) {
        AfterBlanks::Start(p) => is_v(argument_at(text, p)),
        AfterBlanks::End(_) => false,
        AfterBlanks::Bad(_) => false,
    }
}

// The refusal of a known statement's line, `at` just after its keyword: 10, 5, and then its words.
fn line_fault(
    text: &[u8],
    key: usize,
    at: usize,
    words: usize,
    statement: Carried,
    kind: u32,
    form: Form,
    seen: Seen,
    vp: &[i32],
) -> Result<(), Refusal>
    requires { at ≤ length text.now }
    ensures { refusal_said result ≡ line_fault (seen_by seen) vp.now form kind key statement words (rest_at text.now at).words }
{
    let rules = rules_of(statement);
    let v = says_v(text, at);
    if !allowed(rules.standing, kind, v) {
        return Err(Refusal {
            reason: Reason::NotHere,
            place: key,
        });
    }
    if !counted(rules.count, words) {
        return Err(Refusal {
            reason: Reason::WordCount,
            place: key,
        });
    }
    words_fault(
        text,
        key,
        at,
        rules.forms,
        rules.held,
        words,
        form,
        seen,
        vp,
    )
}

// The refusal of the line whose keyword is the word at `key` and has `words` words after it.
fn statement_fault(
    text: &[u8],
    key: usize,
    words: usize,
    kind: u32,
    form: Form,
    seen: Seen,
    vp: &[i32],
) -> Result<(), Refusal>
    requires { key ≤ length text.now }
    ensures { refusal_said result ≡ statement_fault (seen_by seen) vp.now form kind text.now key words }
{
    let keyword = keyword_at(text, key);
    let statement = keyword.statement;
    match statement {
        Statement::Carried(carried) => {
            let at = word_end(text, key);
            line_fault(text, key, at, words, carried, kind, form, seen, vp)
        }
        Statement::Refused => Err(Refusal {
            reason: Reason::NotTaken,
            place: key,
        }),
        Statement::Unknown => Err(Refusal {
            reason: Reason::UnknownKeyword,
            place: key,
        }),
    }
}

// The refusal of the line that starts at `at`, but for 14 and what `end` finds in its body.
pub fn diagnose(text: &[u8], at: usize, state: State, vp: &[i32]) -> Result<(), Refusal>
    requires { at ≤ length text.now }
    ensures { DiagnosisIs text.now at state vp.now result }
{
    let used = state.used;
    let open = state.open;
    let form = state.form;
    let seen = Seen {
        counts: Corner {
            v: used.v,
            vt: used.vt,
            vn: used.vn,
        },
        vp: used.vp,
        curves: state.curves,
    };
    match scan_line(text, at) {
        Err(place) => Err(Refusal {
            reason: Reason::ByteNotAllowed,
            place,
        }),
        Ok(line) => match skip_blanks(text, at) {
            AfterBlanks::Start(p) => {
                statement_fault(text, p, line.value - 1, open.kind, form, seen, vp)
            }
            AfterBlanks::End(_) => Ok(()),
            AfterBlanks::Bad(_) => Ok(()),
        },
    }
}
