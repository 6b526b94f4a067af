//! The tokens of one line.

ghost use Rattle.std.specs.Prelude.{◌≡◌, ◌≢◌, ◌≤◌, ◌<◌, ◌∷◌, [], IfOk, IfSome, MatchOption, length, drop, slice_index, slice_range};
ghost use Rattle.m_text.specs.Bytes.{IsWordByte, RunsTo, hash, space};
ghost use Rattle.m_text.specs.Words.{IsNumber};
ghost use Rattle.mpp_lexer.specs.declared.piece.DriverPiece.TheVariants.{Sign};
ghost use Rattle.mpp_lexer.specs.Tokens.{TokensOf, HasBadToken, Spells, IsTooGreat, spaces};
ghost use Rattle.mpp_lexer.specs.inner.Steps.{GoesOn, NoSign};

use crate::piece::{DriverPiece, DriverSign};
use crate::signs::{one_byte_sign, two_byte_sign};
use m_fixed::read_amount;
use m_places::Name;
use m_text::{WordOrNumber, is_word_byte, word_or_number};
use std::alloc::{AllocError, Global};

/// The end of the run of spaces from a position on.
pub fn spaces_end(line: &[u8], from: usize) -> usize
    requires { from ≤ length line.now }
    ensures { RunsTo (λ b. b ≡ space) line.now from result }
{
    for end in from..line.len() {
        if line[end] != b' ' {
            return end;
        }
    }
    line.len()
}

/// The tokens of a line; `None` if no token begins at some byte, or a number is too great.
pub fn line_tokens(alloc: Global, line: &[u8]) -> Result<Option<Vec<DriverPiece>>, AllocError>
    ensures { IfOk result (λ o. MatchOption o (HasBadToken line.now) (λ tokens. TokensOf line.now tokens.items)) }
{
    let mut tokens = Vec::new(alloc);
    let mut at = spaces_end(line, 0);
    while at < line.len() && line[at] != b'#' {
        let Some((token, end)) = token_at(alloc, line, at)? else {
            return Ok(None);
        };
        tokens.push(token)?;
        at = spaces_end(line, end);
    }
    Ok(Some(tokens))
}

// The token at a position, and the position after it.
fn token_at(
    alloc: Global,
    line: &[u8],
    at: usize,
) -> Result<Option<(DriverPiece, usize)>, AllocError>
    requires within { at < length line.now }
    requires no_space { slice_index line.now at ≢ space }
    requires no_comment { slice_index line.now at ≢ hash }
    ensures onward { IfOk result (λ o. IfSome o (λ r. (at < r.1) × (r.1 ≤ length line.now))) }
    ensures token { IfOk result (λ o. MatchOption o (HasBadToken (drop at line.now)) (λ r. GoesOn line.now at (r.0 ∷ []) r.1)) }
{
    if !is_word_byte(line[at]) {
        return Ok(sign_at(line, at));
    }
    match word_or_number(line, at) {
        WordOrNumber::Word(end) => {
            let word = Name::new(alloc, &line[at..end])?;
            Ok(Some((DriverPiece::Word(word), end)))
        }
        WordOrNumber::Number(end) => match number_piece(alloc, &line[at..end])? {
            Some(number) => Ok(Some((number, end))),
            None => Ok(None),
        },
    }
}

// The amount and the spelling of a number; `None` if it is too great.
fn number_piece(alloc: Global, text: &[u8]) -> Result<Option<DriverPiece>, AllocError>
    requires { IsNumber text.now }
    ensures { IfOk result (λ o. MatchOption o (IsTooGreat text.now) (Spells text.now)) }
{
    match read_amount(text) {
        Ok(amount) => Ok(Some(DriverPiece::Number(amount, Name::new(alloc, text)?))),
        Err(_) => Ok(None),
    }
}

// The longest sign at a position, of one or two bytes, and the position after it.
fn sign_at(line: &[u8], at: usize) -> Option<(DriverPiece, usize)>
    requires within { at < length line.now }
    requires no_word { IsWordByte (slice_index line.now at) → ⊥ }
    requires no_space { slice_index line.now at ≢ space }
    requires no_comment { slice_index line.now at ≢ hash }
    ensures onward { IfSome result (λ r. (at < r.1) × (r.1 ≤ length line.now)) }
    ensures token { MatchOption result (HasBadToken (drop at line.now)) (λ r. GoesOn line.now at (r.0 ∷ []) r.1) }
{
    let (sign, end) = longest_sign(line, at)?;
    Some((DriverPiece::Sign(sign), end))
}

fn longest_sign(line: &[u8], at: usize) -> Option<(DriverSign, usize)>
    requires { at < length line.now }
    ensures onward { IfSome result (λ r. (at < r.1) × (r.1 ≤ length line.now)) }
    ensures sign { MatchOption result (NoSign line.now at) (λ r. GoesOn line.now at (Sign r.0 ∷ []) r.1) }
{
    if at + 1 < line.len() {
        if let Some(sign) = two_byte_sign(line[at], line[at + 1]) {
            return Some((sign, at + 2));
        }
    }
    match one_byte_sign(line[at]) {
        Some(sign) => Some((sign, at + 1)),
        None => None,
    }
}
