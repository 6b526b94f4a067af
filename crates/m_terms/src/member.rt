//! The members after `dans`.
ghost use Rattle.std.specs.Prelude.{◌≡◌, ◌<◌, length, IfOk, OnOk};
ghost use Rattle.m_terms.specs.Grammar.{member};
ghost use Rattle.m_terms.specs.Tokens.{is_sign};
ghost use Rattle.m_lexer.specs.declared.token.Sign.TheVariants.{Comma};
ghost use Rattle.m_lexer.specs.inner.Chains.{open_at};
ghost use Rattle.m_terms.specs.inner.Reading.{Gives, GivesBy, number, signed_at, ends_at, joined_at, member_at, members_at};

use crate::build::{applied, boxed};
use crate::cursor::{Cursor, Mark};
use crate::fault::TermFault;
use m_ast::{Member, Node, Term};
use m_fixed::{Op, Value};
use m_lexer::{Kind, Sign};
use std::alloc::{AllocError, Global};

// A number.
fn read_number(alloc: Global, cursor: &mut Cursor<'_>) -> Result<Box<Term>, TermFault>
    ensures reads { GivesBy (λ t. t.value) result (open_at number cursor.old) cursor.new }
    ensures shorter { OnOk result (length cursor.new < length cursor.old) }
{
    let Some(token) = cursor.next() else {
        return Err(TermFault::NoTerm);
    };
    match &token.kind {
        Kind::Number(amount, _) => Ok(boxed(alloc, Node::Lit(Value::Num(*amount)))?),
        _ => Err(TermFault::NoTerm),
    }
}

// [ "-" ] NUMBER
#[tactic(auto, unfolding(crate::specs::inner::Reading::signed_at))]
fn read_signed(alloc: Global, cursor: &mut Cursor<'_>) -> Result<Box<Term>, TermFault>
    ensures reads { GivesBy (λ t. t.value) result (signed_at cursor.old) cursor.new }
    ensures shorter { OnOk result (length cursor.new < length cursor.old) }
{
    if !cursor.take(Mark::OfSign(Sign::Minus)) {
        return read_number(alloc, cursor);
    }
    let number = read_number(alloc, cursor)?;
    Ok(applied(alloc, Op::Neg, number)?)
}

// A single amount, or a range.
#[tactic(auto, unfolding(crate::specs::inner::Reading::ends_at))]
fn read_ends(alloc: Global, cursor: &mut Cursor<'_>) -> Result<Member, TermFault>
    ensures reads { Gives result (ends_at cursor.old) cursor.new }
    ensures shorter { OnOk result (length cursor.new < length cursor.old) }
{
    let low = read_signed(alloc, cursor)?;
    if !cursor.take(Mark::OfSign(Sign::Range)) {
        return Ok(single(alloc, low)?);
    }
    let high = read_signed(alloc, cursor)?;
    Ok(Member {
        low: Box::into_inner(low),
        high: Box::into_inner(high),
    })
}

// A member whose two ends are this term.
fn single(alloc: Global, term: Box<Term>) -> Result<Member, AllocError>
    ensures { IfOk result (λ m. m ≡ member term.value term.value) }
{
    let low = term.copy(alloc)?;
    Ok(Member {
        low,
        high: Box::into_inner(term),
    })
}

// [ "-" ] NUMBER | WORD | [ "-" ] NUMBER ".." [ "-" ] NUMBER
#[tactic(auto, unfolding(crate::specs::inner::Reading::member_at))]
fn read_member(alloc: Global, cursor: &mut Cursor<'_>) -> Result<Member, TermFault>
    ensures reads { Gives result (member_at cursor.old) cursor.new }
    ensures shorter { OnOk result (length cursor.new < length cursor.old) }
{
    let Some((word, place)) = cursor.take_word() else {
        return read_ends(alloc, cursor);
    };
    let term = boxed(alloc, Node::Named(word.copy(alloc)?, place))?;
    Ok(single(alloc, term)?)
}

// member { "," member }
#[tactic(auto, unfolding(crate::specs::inner::Reading::joined_at))]
fn read_list(alloc: Global, cursor: &mut Cursor<'_>) -> Result<Vec<Member>, TermFault>
    ensures reads { GivesBy (λ v. v.items) result (joined_at (is_sign Comma) member_at cursor.old) cursor.new }
    ensures shorter { OnOk result (length cursor.new < length cursor.old) }
{
    let mut members = Vec::with_capacity(alloc, 1)?;
    let first = read_member(alloc, cursor)?;
    members.push(first)?;
    'members: while cursor.take(Mark::OfSign(Sign::Comma)) {
        let member = read_member(alloc, cursor)?;
        members.push(member)?;
    }
    Ok(members)
}

/// "(" member { "," member } ")"
#[tactic(auto, unfolding(crate::specs::inner::Reading::members_at))]
pub fn read_members(alloc: Global, cursor: &mut Cursor<'_>) -> Result<Vec<Member>, TermFault>
    ensures reads { GivesBy (λ v. v.items) result (members_at cursor.old) cursor.new }
    ensures shorter { OnOk result (length cursor.new < length cursor.old) }
{
    if !cursor.take(Mark::OfSign(Sign::OpenParen)) {
        return Err(TermFault::NoTerm);
    }
    let members = read_list(alloc, cursor)?;
    if !cursor.take(Mark::OfSign(Sign::CloseParen)) {
        return Err(TermFault::NoTerm);
    }
    Ok(members)
}
