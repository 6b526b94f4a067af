//! The nesting depth of brackets and conditionals.
ghost use Rattle.std.specs.Prelude.{◌≡◌, ◌≤◌};
ghost use Rattle.m_places.specs.declared.limits.TheConstants.{BRACKET_DEPTH};
ghost use Rattle.m_terms.specs.Depth.{depth_behind, first_too_deep};

use m_lexer::{Key, Kind, Sign, Token};
use m_places::Place;
use m_places::limits::BRACKET_DEPTH;

/// The place of the first token at which brackets and conditionals are nested more than 256 deep,
/// or `None`. Takes no memory.
///
/// `(`, `[` and `si` add one to the depth; `)`, `]`, `finsi` and `erreur` subtract one unless it is
/// 0; `regle` and `verif` reset it to 0.
pub fn depth_fault(tokens: &[Token]) -> Option<Place>
    ensures { result ≡ first_too_deep BRACKET_DEPTH 0 tokens.now }
{
    let mut depth = 0;
    for token in tokens {
        depth = behind(depth, &token.kind);
        if depth > BRACKET_DEPTH {
            return Some(token.place);
        }
    }
    None
}

// The depth after a token, from the depth before it.
fn behind(depth: u32, kind: &Kind) -> u32
    requires { depth ≤ BRACKET_DEPTH }
    ensures { result ≡ depth_behind depth kind.now }
{
    match kind {
        Kind::Sign(Sign::OpenParen) | Kind::Sign(Sign::OpenBracket) | Kind::Key(Key::Si) => depth
            + 1,
        Kind::Sign(Sign::CloseParen)
        | Kind::Sign(Sign::CloseBracket)
        | Kind::Key(Key::Finsi)
        | Kind::Key(Key::Erreur) => depth.saturating_sub(1),
        Kind::Key(Key::Regle) | Kind::Key(Key::Verif) => 0,
        _ => depth,
    }
}
