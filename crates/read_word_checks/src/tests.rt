ghost use Rattle.std.specs.Prelude.{◌≡◌};
ghost use Rattle.read_word_checks.specs.Faults.{test_by};

use statements::rules::{Forms, Parts, WordForm, form_at};

// What a word is tested for: its form; a corner also for the first corner's pattern, which has no vt or no vn; a control for two coordinates given.
#[derive(Clone, Copy)]
pub enum Test {
    Form(WordForm),
    Alike {
        parts: Parts,
        bare: bool,
        flat: bool,
    },
    Wide,
}

// The tests of a line's words: the form of each, or one test for all.
#[derive(Clone, Copy)]
pub enum Tests {
    Each(Forms),
    All(Test),
}

// The test of word `index`, from 0, of `words`.
pub fn test_at(tests: Tests, words: usize, index: usize) -> Test
    ensures { result ≡ test_by tests words index }
{
    match tests {
        Tests::Each(forms) => Test::Form(form_at(forms, words, index)),
        Tests::All(test) => test,
    }
}
