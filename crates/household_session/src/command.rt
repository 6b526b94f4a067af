//! Parses lines as commands.
ghost use Rattle.std.specs.Prelude.{◌≡◌, ◌∷◌};
ghost use Rattle.household_session.specs.Commands.{session_command, words_command, line_words};
ghost use Rattle.household_session.specs.inner.Ready.{command_in};

use crate::words::next_word;
use m_places::limits::SESSION_LINE_BYTES;
use m_text::without_return;

/// A command, with its operands as parts of the line.
#[derive(Clone, Copy)]
pub(crate) enum LineCommand<'a> {
    Nothing,
    Set(&'a [u8], &'a [u8]),
    Clear(&'a [u8]),
    Show,
    TooLong,
    Bad,
}

/// Parses a line without its line feed.
pub(crate) fn command_of_line(line: &[u8]) -> LineCommand<'_>
    ensures { command_in result ≡ session_command line.now }
{
    if line.len() > SESSION_LINE_BYTES {
        return LineCommand::TooLong;
    }
    let line = without_return(line);
    match next_word(line) {
        None => LineCommand::Nothing,
        Some((word, rest)) => behind_one(word, rest),
    }
}

fn behind_one<'a>(word: &'a [u8], rest: &'a [u8]) -> LineCommand<'a>
    ensures { command_in result ≡ words_command (word.now ∷ line_words rest.now) }
{
    match next_word(rest) {
        None => {
            if word == b"show".as_slice() {
                LineCommand::Show
            } else {
                LineCommand::Bad
            }
        }
        Some((code, rest)) => behind_two(word, code, rest),
    }
}

fn behind_two<'a>(word: &'a [u8], code: &'a [u8], rest: &'a [u8]) -> LineCommand<'a>
    ensures { command_in result ≡ words_command (word.now ∷ code.now ∷ line_words rest.now) }
{
    match next_word(rest) {
        None => {
            if word == b"clear".as_slice() {
                LineCommand::Clear(code)
            } else {
                LineCommand::Bad
            }
        }
        Some((amount, rest)) => behind_three(word, code, amount, rest),
    }
}

fn behind_three<'a>(
    word: &'a [u8],
    code: &'a [u8],
    amount: &'a [u8],
    rest: &'a [u8],
) -> LineCommand<'a>
    ensures { command_in result ≡ words_command (word.now ∷ code.now ∷ amount.now ∷ line_words rest.now) }
{
    match next_word(rest) {
        None => {
            if word == b"set".as_slice() {
                LineCommand::Set(code, amount)
            } else {
                LineCommand::Bad
            }
        }
        Some(_) => LineCommand::Bad,
    }
}
