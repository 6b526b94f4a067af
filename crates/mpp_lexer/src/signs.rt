//! The signs of a driver.

ghost use Rattle.std.specs.Prelude.{◌≡◌, ◌≢◌, MatchOption, [], ◌∷◌};
ghost use Rattle.mpp_lexer.specs.declared.piece.DriverSign.{DriverSign};
ghost use Rattle.mpp_lexer.specs.Tokens.{sign_spelling};

use crate::piece::DriverSign;

/// The sign that two bytes spell.
pub fn two_byte_sign(first: u8, second: u8) -> Option<DriverSign>
    ensures { MatchOption result
        ((s : DriverSign) → sign_spelling s ≢ first ∷ second ∷ [])
        (λ s. sign_spelling s ≡ first ∷ second ∷ []) }
{
    match (first, second) {
        (b'=', b'=') => Some(DriverSign::Equal),
        (b'!', b'=') => Some(DriverSign::NotEqual),
        (b'<', b'=') => Some(DriverSign::LessEqual),
        (b'>', b'=') => Some(DriverSign::GreaterEqual),
        (b'<', b'-') => Some(DriverSign::Receive),
        _ => None,
    }
}

/// The sign that one byte spells.
pub fn one_byte_sign(byte: u8) -> Option<DriverSign>
    ensures { MatchOption result
        ((s : DriverSign) → sign_spelling s ≢ byte ∷ [])
        (λ s. sign_spelling s ≡ byte ∷ []) }
{
    match byte {
        b'(' => Some(DriverSign::OpenParen),
        b')' => Some(DriverSign::CloseParen),
        b'[' => Some(DriverSign::OpenBracket),
        b']' => Some(DriverSign::CloseBracket),
        b',' => Some(DriverSign::Comma),
        b':' => Some(DriverSign::Colon),
        b'=' => Some(DriverSign::Assign),
        b'<' => Some(DriverSign::Less),
        b'>' => Some(DriverSign::Greater),
        b'+' => Some(DriverSign::Plus),
        b'-' => Some(DriverSign::Minus),
        b'*' => Some(DriverSign::Star),
        b'/' => Some(DriverSign::Slash),
        _ => None,
    }
}
