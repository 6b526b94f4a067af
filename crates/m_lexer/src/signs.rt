//! The signs of M.

ghost use Rattle.std.specs.Prelude.{◌≡◌, ◌≢◌, MatchOption, [], ◌∷◌};
ghost use Rattle.m_lexer.specs.declared.token.Sign.{Sign};
ghost use Rattle.m_lexer.specs.Spellings.{sign_spelling};

use crate::token::Sign;

/// The sign with this spelling of two bytes.
pub fn two_byte_sign(first: u8, second: u8) -> Option<Sign>
    ensures { MatchOption result
        ((s : Sign) → sign_spelling s ≢ first ∷ second ∷ [])
        (λ s. sign_spelling s ≡ first ∷ second ∷ []) }
{
    match (first, second) {
        (b'!', b'=') => Some(Sign::NotEqual),
        (b'<', b'=') => Some(Sign::LessEqual),
        (b'>', b'=') => Some(Sign::GreaterEqual),
        (b'.', b'.') => Some(Sign::Range),
        _ => None,
    }
}

/// The sign with this spelling of one byte.
pub fn one_byte_sign(byte: u8) -> Option<Sign>
    ensures { MatchOption result
        ((s : Sign) → sign_spelling s ≢ byte ∷ [])
        (λ s. sign_spelling s ≡ byte ∷ []) }
{
    match byte {
        b'+' => Some(Sign::Plus),
        b'-' => Some(Sign::Minus),
        b'*' => Some(Sign::Star),
        b'/' => Some(Sign::Slash),
        b'=' => Some(Sign::Equal),
        b'<' => Some(Sign::Less),
        b'>' => Some(Sign::Greater),
        b'(' => Some(Sign::OpenParen),
        b')' => Some(Sign::CloseParen),
        b'[' => Some(Sign::OpenBracket),
        b']' => Some(Sign::CloseBracket),
        b',' => Some(Sign::Comma),
        b';' => Some(Sign::Semicolon),
        b':' => Some(Sign::Colon),
        _ => None,
    }
}
