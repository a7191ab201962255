ghost use Rattle.std.specs.Prelude.{◌≡◌, ◌∷◌, ◌≤◌, length};
ghost use Rattle.text.specs.Rest.{rest_at, word_at, end_of};
ghost use Rattle.read_word_checks.specs.Faults.{refusal_said, seen_by, pattern_fault, body_fault, curve2_fault, free_fault, held_fault};

use crate::tests::{Test, Tests};
use crate::walk::{first_fault, skip};
use crate::word::Seen;
use read_state::{Form, in_force};
use references::corner::corner_at;
use refusals::{Reason, Refusal};
use statements::Free;
use statements::rules::{Held, Parts, range_words};
use text::AfterBlanks;

// 9, of the corners after the first, which is the word at `at`.
fn pattern_from(text: &[u8], at: usize, parts: Parts, seen: Seen, vp: &[i32]) -> Result<(), Refusal>
    requires at_in_bounds { at ≤ length text.now }
    requires end_in_bounds { end_of text.now at ≤ length text.now }
    ensures { refusal_said result ≡ pattern_fault (seen_by seen) vp.now parts.vt parts.vn (word_at text.now at ∷ (rest_at text.now (end_of text.now at)).words) }
{
    let Ok(corner) = corner_at(text, at, seen.counts, parts) else {
        return Ok(());
    };
    first_fault(
        text,
        corner.next,
        Tests::All(Test::Alike {
            parts,
            bare: corner.value.vt == 0,
            flat: corner.value.vn == 0,
        }),
        0,
        seen,
        vp,
    )
}

// 9, of the corners from `at` on.
fn pattern_fault(
    text: &[u8],
    at: usize,
    parts: Parts,
    seen: Seen,
    vp: &[i32],
) -> Result<(), Refusal>
    requires { at ≤ length text.now }
    ensures { refusal_said result ≡ pattern_fault (seen_by seen) vp.now parts.vt parts.vn (rest_at text.now at).words }
{
    match text::skip_blanks(text, at) {
        AfterBlanks::Start(p) => pattern_from(text, p, parts, seen, vp),
        AfterBlanks::End(_) => Ok(()),
        AfterBlanks::Bad(_) => Ok(()),
    }
}

// 9 and 11 of a curv or surf line, its controls from `at` on.
fn body_fault(
    text: &[u8],
    key: usize,
    at: usize,
    surface: bool,
    form: Form,
    seen: Seen,
    vp: &[i32],
) -> Result<(), Refusal>
    requires { at ≤ length text.now }
    ensures { refusal_said result ≡ body_fault (seen_by seen) vp.now form key surface (rest_at text.now at).words }
{
    let parts = Parts {
        vt: surface,
        vn: surface,
    };
    pattern_fault(text, at, parts, seen, vp)?;
    if in_force(surface, form) {
        return Ok(());
    }
    Err(Refusal {
        reason: Reason::Incomplete,
        place: key,
    })
}

// 11 and 12 of a curv2 line, its controls from `at` on.
fn curve2_fault(
    text: &[u8],
    key: usize,
    at: usize,
    form: Form,
    seen: Seen,
    vp: &[i32],
) -> Result<(), Refusal>
    requires { at ≤ length text.now }
    ensures { refusal_said result ≡ curve2_fault (seen_by seen) vp.now form key (rest_at text.now at).words }
{
    if in_force(false, form) {
        return first_fault(text, at, Tests::All(Test::Wide), 0, seen, vp);
    }
    Err(Refusal {
        reason: Reason::Incomplete,
        place: key,
    })
}

// 9, 11 and 12 of the line of a body's element, its controls from `at` on.
fn free_fault(
    text: &[u8],
    key: usize,
    at: usize,
    free: Free,
    form: Form,
    seen: Seen,
    vp: &[i32],
) -> Result<(), Refusal>
    requires { at ≤ length text.now }
    ensures { refusal_said result ≡ free_fault (seen_by seen) vp.now form key free (rest_at text.now at).words }
{
    match free {
        Free::Curve => body_fault(text, key, at, false, form, seen, vp),
        Free::Curve2 => curve2_fault(text, key, at, form, seen, vp),
        Free::Surface => body_fault(text, key, at, true, form, seen, vp),
    }
}

// 9, 11 and 12 of a line whose words have their forms; what `end` finds in its body, it finds itself.
pub fn held_fault(
    text: &[u8],
    key: usize,
    at: usize,
    held: Held,
    form: Form,
    seen: Seen,
    vp: &[i32],
) -> Result<(), Refusal>
    requires { at ≤ length text.now }
    ensures { refusal_said result ≡ held_fault (seen_by seen) vp.now form key held (rest_at text.now at).words }
{
    match held {
        Held::Nothing => Ok(()),
        Held::Corners(parts) => pattern_fault(text, at, parts, seen, vp),
        Held::Body(free) => {
            let controls = skip(text, at, range_words(free));
            free_fault(text, key, controls, free, form, seen, vp)
        }
        Held::End => Ok(()),
    }
}
