//! The public readers, from positions to trees and positions.
ghost use Rattle.std.specs.Prelude.{◌≡◌, ℕ, ◌≤◌, length, List, drop, None};
ghost use Rattle.m_lexer.specs.declared.token.Token.{Token};
ghost use Rattle.m_lexer.specs.declared.token.Sign.TheVariants.{Colon};
ghost use Rattle.m_places.specs.Refusals.{Outcome};
ghost use Rattle.m_ast.specs.Syntax.{Syntax};
ghost use Rattle.m_ast.specs.declared.header.Header.{Header};
ghost use Rattle.m_terms.specs.declared.fault.TermFault.TheVariants.{Memory};
ghost use Rattle.m_terms.specs.Tokens.{is_sign};
ghost use Rattle.m_terms.specs.Depth.{first_too_deep};
ghost use Rattle.m_terms.specs.Grammar.{SpellsExpr, SpellsInner};
ghost use Rattle.m_places.specs.declared.limits.TheConstants.{BRACKET_DEPTH};
ghost use Rattle.m_terms.specs.Headers.{SpellsHeader};
ghost use Rattle.m_terms.specs.Terms.{SpellsTerm, BeginsBy, follows, TermAt, HeaderAt, NoTermAt, NoHeaderAt};

use crate::cursor::{Cursor, Mark};
use crate::expression::expression;
use crate::fault::TermFault;
use crate::header::header;
use m_ast::{Header, Term};
use m_lexer::{Sign, Token};
use m_places::limits::BRACKET_DEPTH;
use std::alloc::Global;

/// The term that starts at this position, and the position after it, where one of `;`, `)`, `]`,
/// `,`, `alors`, `sinon` and `finsi` follows.
///
/// `A + 1 ;` gives `A + 1` and 3. `NoTerm` is returned exactly if no term, with brackets and
/// conditionals nested at most 256 deep, starts here. It has no place: the caller knows what it
/// expected.
pub fn read_term(alloc: Global, tokens: &[Token], from: usize) -> Result<(Term, usize), TermFault>
    requires { from ≤ length tokens.now }
    ensures outcome { Outcome Memory result (λ read. TermAt tokens.now from read.0 read.1) (λ fault. NoTermAt tokens.now from) }
{
    let mut cursor = Cursor::new(&tokens[from..]);
    let term = expression(alloc, &mut cursor, BRACKET_DEPTH)?;
    if !cursor.is_at_follower() {
        return Err(TermFault::NoTerm);
    }
    Ok((Box::into_inner(term), tokens.len() - cursor.len()))
}

/// The header that starts at this position, and the position after it, where `:` follows.
///
/// `i = V,C :` gives `i = V,C` and 5. `NoTerm` is returned exactly if no header starts here.
pub fn read_header(
    alloc: Global,
    tokens: &[Token],
    from: usize,
) -> Result<(Header, usize), TermFault>
    requires { from ≤ length tokens.now }
    ensures outcome { Outcome Memory result (λ read. HeaderAt tokens.now from read.0 read.1) (λ fault. NoHeaderAt tokens.now from) }
{
    let mut cursor = Cursor::new(&tokens[from..]);
    let header = header(alloc, &mut cursor)?;
    if !cursor.is_at(Mark::OfSign(Sign::Colon)) {
        return Err(TermFault::NoTerm);
    }
    Ok((header, tokens.len() - cursor.len()))
}

/// The grammar is unambiguous: at most one prefix of the tokens that is followed by a token that
/// may follow a term parses as a term, and only as one.
pub fn one_term()
    ensures { (t u : Syntax) (ts r s : List Token) → SpellsTerm t ts r → BeginsBy follows r → SpellsTerm u ts s → BeginsBy follows s → (t ≡ u) × (r ≡ s) }
{}

/// The grammar is unambiguous: at most one prefix of the tokens that is followed by a `:` parses as
/// a header, and only as one.
pub fn one_header()
    ensures { (h k : Header) (ts r s : List Token) → SpellsHeader h ts r → BeginsBy (is_sign Colon) r
        → SpellsHeader k ts s → BeginsBy (is_sign Colon) s → (h ≡ k) × (r ≡ s) }
{}

/// Where no token is too deep, every term has its brackets and conditionals nested at most 256
/// deep: `read_term` omits none.
pub fn shallow_terms()
    ensures { (tokens : List Token) (from d : ℕ) (t : Syntax) (rest : List Token) → first_too_deep BRACKET_DEPTH 0 tokens ≡ None
        → SpellsExpr (SpellsInner d) t (drop from tokens) rest → SpellsTerm t (drop from tokens) rest }
{}
