//! The lines `why NAME`.
ghost use Rattle.std.specs.Prelude.{◌≡◌, ◌∷◌, option_copied};
ghost use Rattle.household_session.specs.Commands.{line_words};
ghost use Rattle.why_session.specs.Explains.{why_name, why_words};

use household_session::next_word;
use m_places::limits::SESSION_LINE_BYTES;
use m_text::without_return;

/// The NAME of a line `why NAME`, given without its line feed; None for any other line. Takes no memory.
pub(crate) fn why_name(line: &[u8]) -> Option<&[u8]>
    ensures { option_copied result ≡ why_name line.now }
{
    if line.len() > SESSION_LINE_BYTES {
        return None;
    }
    let line = without_return(line);
    match next_word(line) {
        None => None,
        Some((word, rest)) => after_one(word, rest),
    }
}

fn after_one<'a>(word: &'a [u8], rest: &'a [u8]) -> Option<&'a [u8]>
    ensures { option_copied result ≡ why_words (word.now ∷ line_words rest.now) }
{
    match next_word(rest) {
        None => None,
        Some((name, rest)) => after_two(word, name, rest),
    }
}

fn after_two<'a>(word: &'a [u8], name: &'a [u8], rest: &'a [u8]) -> Option<&'a [u8]>
    ensures { option_copied result ≡ why_words (word.now ∷ name.now ∷ line_words rest.now) }
{
    match next_word(rest) {
        None => {
            if word == b"why".as_slice() {
                Some(name)
            } else {
                None
            }
        }
        Some(_) => None,
    }
}
