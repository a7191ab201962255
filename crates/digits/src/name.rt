ghost use Rattle.std.specs.Prelude.{◌≡◌, ◌≤◌, length, drop};
ghost use Rattle.text.specs.Words.{word_of};
ghost use Rattle.text.specs.Rest.{end_of};
ghost use Rattle.digits.specs.Degree.{name_of};
ghost use Rattle.digits.specs.Answers.{said_name, ends_at};

use refusals::Reason;

// Where the name at `at` ends.
pub fn name_at(text: &[u8], at: usize) -> Result<usize, Reason>
    requires { at ≤ length text.now }
    ensures { said_name (word_of (drop at text.now)) result ≡ ends_at (name_of (word_of (drop at text.now))) (end_of text.now at) }
{
    let end = text::word_end(text, at);
    if end == at || 255 < end - at {
        return Err(Reason::Malformed);
    }
    Ok(end)
}
