//! Tokenizes a driver line by line.

ghost use Rattle.std.specs.Prelude.{◌≡◌, ℕ, ◌+◌, ◌≤◌, ◌∷◌, List, MatchOption, length};
ghost use Rattle.m_places.specs.Refusals.{Outcome};
ghost use Rattle.m_places.specs.declared.limits.TheConstants.{FILE_BYTES};
ghost use Rattle.m_text.specs.Lines.{lines_of};
ghost use Rattle.mpp_lexer.specs.declared.fault.DriverFault.TheVariants.{Memory};
ghost use Rattle.mpp_lexer.specs.declared.piece.Line.{Line};
ghost use Rattle.mpp_lexer.specs.Tokens.{TokensOf};
ghost use Rattle.mpp_lexer.specs.Lines.{Lexes, IsTokenFault};

use crate::fault::DriverFault;
use crate::line::{line_tokens, spaces_end};
use crate::piece::{DriverPiece, Line};
use m_places::Seq;
use m_text::first_line;
use std::alloc::Global;

/// The lines of a driver that have tokens, in order.
///
/// `main():\n  IRN = 1\n` has line 1 with indentation 0 and the tokens `main`, `(`, `)`, `:`, and
/// line 2 with indentation 2 and the tokens `IRN`, `=`, `1`. With a tab before `IRN`, line 2 is
/// rejected as `DriverToken(2)`; so is a line with a carriage return that doesn't precede its line
/// feed. Takes memory for the lines, their tokens and names only.
pub fn lex_driver(alloc: Global, bytes: &[u8]) -> Result<Vec<Line>, DriverFault>
    requires { length bytes.now ≤ FILE_BYTES }
    ensures outcome { Outcome Memory result
        (λ lines. Lexes 1 (lines_of bytes.now) lines.items)
        (IsTokenFault (lines_of bytes.now)) }
{
    let mut lines = Vec::new(alloc);
    let mut number = 1;
    let mut rest = bytes;
    while let Some((text, behind)) = first_line(rest) {
        let Some(tokens) = line_tokens(alloc, text)? else {
            return Err(DriverFault::DriverToken(number));
        };
        if let Some(line) = line_of(number, text, tokens) {
            lines.push(line)?;
        }
        number += 1;
        rest = behind;
    }
    Ok(lines)
}

// The line with these tokens, or `None` if there are none.
fn line_of(number: u32, text: &[u8], tokens: Vec<DriverPiece>) -> Option<Line>
    requires short { length text.now ≤ FILE_BYTES }
    requires tokens { TokensOf text.now tokens.items }
    ensures { (texts : List (List ℕ)) (others : List Line) → Lexes (number + 1) texts others →
        MatchOption result
        (Lexes number (text.now ∷ texts) others)
        (λ line. Lexes number (text.now ∷ texts) (line ∷ others)) }
{
    let tokens = Seq::from_vec(tokens);
    if tokens.as_slice().is_empty() {
        return None;
    }
    let indent = spaces_end(text, 0) as u32;
    Some(Line {
        number,
        indent,
        tokens,
    })
}
