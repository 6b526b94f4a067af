//! The nesting level of each line, and its open brackets.
ghost use Rattle.std.specs.Prelude.{◌≡◌, ◌≤◌, ◌||◌, nat_lt, [], length, IfOk, MatchOption};
ghost use Rattle.m_places.specs.declared.limits.TheConstants.{BRACKET_DEPTH, DRIVER_LEVEL};
ghost use Rattle.mpp_parser.specs.Depths.{open_behind, opens_too_many, FirstTooDeep, Shallow};
ghost use Rattle.mpp_parser.specs.inner.Outers.{left_outers};

use crate::blocks::LineCursor;
use crate::cursor::Pieces;
use m_places::limits::{BRACKET_DEPTH, DRIVER_LEVEL};
use mpp_lexer::{DriverPiece, DriverSign, Line};
use std::alloc::{AllocError, Global};

/// The number of the first line whose level is above 64, or that has more than 256 brackets open at
/// once.
pub fn first_too_deep(alloc: Global, lines: &[Line]) -> Result<Option<u32>, AllocError>
    ensures { IfOk result (λ o. MatchOption o (Shallow [] lines.now) (FirstTooDeep [] lines.now)) }
{
    // The indentations of the previous line and its outer lines, innermost first.
    let mut outers = Vec::new(alloc);
    let mut left = LineCursor::new(lines);
    while let Some(line) = left.next() {
        leave_blocks(&mut outers, line.indent);
        if is_too_deep(outers.as_slice(), line.tokens.as_slice()) {
            return Ok(Some(line.number));
        }
        outers.insert(0, line.indent)?;
    }
    Ok(None)
}

// Whether a line with these outer lines and tokens is too deep.
fn is_too_deep(outers: &[u32], tokens: &[DriverPiece]) -> bool
    ensures { result ≡ (nat_lt DRIVER_LEVEL (length outers.now) || opens_too_many 0 tokens.now) }
{
    outers.len() > DRIVER_LEVEL as usize || opens_too_many(tokens)
}

// Drops the indentations, innermost first, that aren't less than a line's.
fn leave_blocks(outers: &mut Vec<u32>, indent: u32)
    ensures { outers.new.items ≡ left_outers indent outers.old.items }
{
    'indents: while !outers.is_empty() && outers[0] >= indent {
        outers.remove(0);
    }
}

// Whether more than 256 brackets are open after some token.
fn opens_too_many(tokens: &[DriverPiece]) -> bool
    ensures { result ≡ opens_too_many 0 tokens.now }
{
    let mut brackets = 0;
    let mut left = Pieces::new(tokens);
    while let Some(token) = left.next() {
        brackets = open_behind(brackets, token);
        if brackets > BRACKET_DEPTH {
            return true;
        }
    }
    false
}

// The number of open brackets after a token.
fn open_behind(brackets: u32, token: &DriverPiece) -> u32
    requires { brackets ≤ BRACKET_DEPTH }
    ensures { result ≡ open_behind brackets token.now }
{
    match token {
        DriverPiece::Sign(DriverSign::OpenParen) => brackets + 1,
        DriverPiece::Sign(DriverSign::OpenBracket) => brackets + 1,
        DriverPiece::Sign(DriverSign::CloseParen) => brackets.saturating_sub(1),
        DriverPiece::Sign(DriverSign::CloseBracket) => brackets.saturating_sub(1),
        _ => brackets,
    }
}
