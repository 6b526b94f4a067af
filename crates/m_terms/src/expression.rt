//! Terms, by recursive descent: one function per rule of the grammar. `depth` is how many more
//! levels of brackets and conditionals may be opened.
ghost use Rattle.std.specs.Prelude.{◌≡◌, ℕ, ◌<◌, ◌≤◌, ◌++◌, [], ◌∷◌, length, OnOk};
ghost use Rattle.m_terms.specs.Grammar.{link, function_of};
ghost use Rattle.m_terms.specs.inner.Reading.{GivesBy, until_at, other_at, choice_at, named_at, call_at, loop_at, other_word_at, word_at, prim_at, prim_of};
ghost use Rattle.m_terms.specs.inner.Reading.{factor_at, operator_at, operand_at, level_at, links_at};
ghost use Rattle.m_terms.specs.inner.Reading.{membership_at, inside_at, relation_at, negation_at, expr_at, inner_at};

use crate::build::{applied, applied_to_three, applied_to_two, boxed, chained, without};
use crate::cursor::{Cursor, Level, Mark};
use crate::fault::TermFault;
use crate::header::header;
use crate::member::read_members;
use m_ast::{Link, Node, Term};
use m_fixed::{Op, Value};
use m_lexer::{Key, Kind, Sign};
use m_places::{Name, Place};
use std::alloc::{AllocError, Global};

// The content of brackets or conditionals. `depth` counts this level: inside, `depth - 1` more may
// be opened.
#[cycle(read)]
fn read_inner(alloc: Global, cursor: &mut Cursor<'_>, depth: u32) -> Result<Box<Term>, TermFault>
    ensures reads { GivesBy (λ t. t.value) result (inner_at depth cursor.old) cursor.new }
    ensures shorter { OnOk result (length cursor.new < length cursor.old) }
{
    if depth == 0 {
        return Err(TermFault::NoTerm);
    }
    read_level(alloc, cursor, depth - 1, Level::Disjunction)
}

// expr and a token after it
#[cycle(read)]
#[tactic(auto, unfolding(crate::specs::inner::Reading::until_at))]
fn read_until(
    alloc: Global,
    cursor: &mut Cursor<'_>,
    depth: u32,
    mark: Mark,
) -> Result<Box<Term>, TermFault>
    ensures reads { GivesBy (λ t. t.value) result (until_at (inner_at depth) mark cursor.old) cursor.new }
    ensures shorter { OnOk result (length cursor.new < length cursor.old) }
{
    let term = read_inner(alloc, cursor, depth)?;
    if !cursor.take(mark) {
        return Err(without(term, TermFault::NoTerm));
    }
    Ok(term)
}

// [ "sinon" expr ] "finsi"
#[cycle(read)]
#[tactic(auto, unfolding(crate::specs::inner::Reading::other_at))]
fn read_other(alloc: Global, cursor: &mut Cursor<'_>, depth: u32) -> Result<Box<Term>, TermFault>
    ensures reads { GivesBy (λ t. t.value) result (other_at (inner_at depth) cursor.old) cursor.new }
    ensures shorter { OnOk result (length cursor.new < length cursor.old) }
{
    if cursor.take(Mark::OfKey(Key::Sinon)) {
        return read_until(alloc, cursor, depth, Mark::OfKey(Key::Finsi));
    }
    if !cursor.take(Mark::OfKey(Key::Finsi)) {
        return Err(TermFault::NoTerm);
    }
    Ok(boxed(alloc, Node::Lit(Value::Undef))?)
}

// expr "alors" expr [ "sinon" expr ] "finsi", after `si`
#[inline(never)]
#[cycle(read)]
#[tactic(auto, unfolding(crate::specs::inner::Reading::choice_at))]
fn read_choice(alloc: Global, cursor: &mut Cursor<'_>, depth: u32) -> Result<Box<Term>, TermFault>
    ensures reads { GivesBy (λ t. t.value) result (choice_at (inner_at depth) cursor.old) cursor.new }
    ensures shorter { OnOk result (length cursor.new < length cursor.old) }
{
    let condition = read_until(alloc, cursor, depth, Mark::OfKey(Key::Alors))?;
    let chosen = match read_inner(alloc, cursor, depth) {
        Ok(chosen) => chosen,
        Err(fault) => return Err(without(condition, fault)),
    };
    let other = match read_other(alloc, cursor, depth) {
        Ok(other) => other,
        Err(fault) => return Err(without((condition, chosen), fault)),
    };
    Ok(applied_to_three(alloc, Op::Choose, condition, chosen, other)?)
}

// WORD | WORD "[" expr "]", after the WORD
#[inline(never)]
#[cycle(read)]
#[tactic(auto, unfolding(crate::specs::inner::Reading::named_at))]
fn read_named(
    alloc: Global,
    cursor: &mut Cursor<'_>,
    depth: u32,
    word: &Name,
    place: Place,
) -> Result<Box<Term>, TermFault>
    ensures reads { GivesBy (λ t. t.value) result (named_at (inner_at depth) word.now place cursor.old) cursor.new }
    ensures shorter { OnOk result (length cursor.new ≤ length cursor.old) }
{
    let name = word.copy(alloc)?;
    if !cursor.take(Mark::OfSign(Sign::OpenBracket)) {
        return Ok(boxed(alloc, Node::Named(name, place))?);
    }
    let index = match read_until(alloc, cursor, depth, Mark::OfSign(Sign::CloseBracket)) {
        Ok(index) => index,
        Err(fault) => return Err(without(name, fault)),
    };
    Ok(boxed(alloc, Node::Cell(name, index, place))?)
}

// "(" expr ")" | "(" expr "," expr ")", after a function
#[inline(never)]
#[cycle(read)]
#[tactic(auto, unfolding(crate::specs::inner::Reading::call_at, crate::specs::inner::Reading::called_at, crate::specs::inner::Reading::called_two_at))]
fn read_call(
    alloc: Global,
    cursor: &mut Cursor<'_>,
    depth: u32,
    op: Op,
    has_two: bool,
) -> Result<Box<Term>, TermFault>
    ensures reads { GivesBy (λ t. t.value) result (call_at (inner_at depth) (op, has_two) cursor.old) cursor.new }
    ensures shorter { OnOk result (length cursor.new < length cursor.old) }
{
    if !cursor.take(Mark::OfSign(Sign::OpenParen)) {
        return Err(TermFault::NoTerm);
    }
    if !has_two {
        let only = read_until(alloc, cursor, depth, Mark::OfSign(Sign::CloseParen))?;
        return Ok(applied(alloc, op, only)?);
    }
    let first = read_until(alloc, cursor, depth, Mark::OfSign(Sign::Comma))?;
    match read_until(alloc, cursor, depth, Mark::OfSign(Sign::CloseParen)) {
        Ok(second) => Ok(applied_to_two(alloc, op, first, second)?),
        Err(fault) => Err(without(first, fault)),
    }
}

// "(" header ":" expr ")", after `somme`
#[inline(never)]
#[cycle(read)]
#[tactic(auto, unfolding(crate::specs::inner::Reading::loop_at))]
fn read_loop(alloc: Global, cursor: &mut Cursor<'_>, depth: u32) -> Result<Box<Term>, TermFault>
    ensures reads { GivesBy (λ t. t.value) result (loop_at (inner_at depth) cursor.old) cursor.new }
    ensures shorter { OnOk result (length cursor.new < length cursor.old) }
{
    if !cursor.take(Mark::OfSign(Sign::OpenParen)) {
        return Err(TermFault::NoTerm);
    }
    let header = header(alloc, cursor)?;
    if !cursor.take(Mark::OfSign(Sign::Colon)) {
        return Err(without(header, TermFault::NoTerm));
    }
    match read_until(alloc, cursor, depth, Mark::OfSign(Sign::CloseParen)) {
        Ok(body) => Ok(boxed(alloc, Node::Loop(header, body))?),
        Err(fault) => Err(without(header, fault)),
    }
}

// The operator of a function, and whether it takes two arguments.
fn function(key: Key) -> Option<(Op, bool)>
    ensures { result ≡ function_of key }
{
    match key {
        Key::Present => Some((Op::Present, false)),
        Key::Abs => Some((Op::Abs, false)),
        Key::Positif => Some((Op::Positive, false)),
        Key::PositifOuNul => Some((Op::PositiveOrNull, false)),
        Key::Null => Some((Op::Null, false)),
        Key::Arr => Some((Op::Arr, false)),
        Key::Inf => Some((Op::Inf, false)),
        Key::Max => Some((Op::Max, true)),
        Key::Min => Some((Op::Min, true)),
        _ => None,
    }
}

// The rest of a primary term, after its reserved word.
#[cycle(read)]
#[tactic(auto, unfolding(crate::specs::inner::Reading::word_at, crate::specs::inner::Reading::other_word_at))]
fn read_word(
    alloc: Global,
    cursor: &mut Cursor<'_>,
    depth: u32,
    key: Key,
    place: Place,
) -> Result<Box<Term>, TermFault>
    ensures reads { GivesBy (λ t. t.value) result (word_at (inner_at depth) key place cursor.old) cursor.new }
    ensures shorter { OnOk result (length cursor.new ≤ length cursor.old) }
{
    if let Some((op, has_two)) = function(key) {
        return read_call(alloc, cursor, depth, op, has_two);
    }
    match key {
        Key::X => Ok(boxed(alloc, Node::X(place))?),
        Key::Si => read_choice(alloc, cursor, depth),
        Key::Somme => read_loop(alloc, cursor, depth),
        _ => Err(TermFault::NoTerm),
    }
}

#[cycle(read)]
#[tactic(auto, unfolding(crate::specs::inner::Reading::prim_of))]
fn read_prim(alloc: Global, cursor: &mut Cursor<'_>, depth: u32) -> Result<Box<Term>, TermFault>
    ensures reads { GivesBy (λ t. t.value) result (prim_at (inner_at depth) cursor.old) cursor.new }
    ensures shorter { OnOk result (length cursor.new < length cursor.old) }
{
    let Some(token) = cursor.next() else {
        return Err(TermFault::NoTerm);
    };
    match &token.kind {
        Kind::Number(amount, _) => Ok(boxed(alloc, Node::Lit(Value::Num(*amount)))?),
        Kind::Word(word) => read_named(alloc, cursor, depth, word, token.place),
        Kind::Key(key) => read_word(alloc, cursor, depth, *key, token.place),
        Kind::Sign(Sign::OpenParen) => {
            read_until(alloc, cursor, depth, Mark::OfSign(Sign::CloseParen))
        }
        _ => Err(TermFault::NoTerm),
    }
}

// [ "-" ] prim
#[cycle(read)]
#[tactic(auto, unfolding(crate::specs::inner::Reading::factor_at))]
fn read_factor(alloc: Global, cursor: &mut Cursor<'_>, depth: u32) -> Result<Box<Term>, TermFault>
    ensures reads { GivesBy (λ t. t.value) result (factor_at (inner_at depth) cursor.old) cursor.new }
    ensures shorter { OnOk result (length cursor.new < length cursor.old) }
{
    if !cursor.take(Mark::OfSign(Sign::Minus)) {
        return read_prim(alloc, cursor, depth);
    }
    let term = read_prim(alloc, cursor, depth)?;
    Ok(applied(alloc, Op::Neg, term)?)
}

// operand { operator operand }, of one level
#[cycle(read)]
#[tactic(auto, unfolding(crate::specs::inner::Reading::gathered_at))]
fn read_level(
    alloc: Global,
    cursor: &mut Cursor<'_>,
    depth: u32,
    level: Level,
) -> Result<Box<Term>, TermFault>
    ensures reads { GivesBy (λ t. t.value) result (level_at (inner_at depth) level cursor.old) cursor.new }
    ensures shorter { OnOk result (length cursor.new < length cursor.old) }
{
    let first = read_operand(alloc, cursor, depth, level)?;
    match read_links(alloc, cursor, depth, level) {
        Ok(links) => Ok(chained(alloc, first, links)?),
        Err(fault) => Err(without(first, fault)),
    }
}

// An operand of this level.
#[cycle(read)]
fn read_operand(
    alloc: Global,
    cursor: &mut Cursor<'_>,
    depth: u32,
    level: Level,
) -> Result<Box<Term>, TermFault>
    ensures reads { GivesBy (λ t. t.value) result (operand_at (inner_at depth) level cursor.old) cursor.new }
    ensures shorter { OnOk result (length cursor.new < length cursor.old) }
{
    match level {
        Level::Disjunction => read_level(alloc, cursor, depth, Level::Conjunction),
        Level::Conjunction => read_negation(alloc, cursor, depth),
        Level::Sum => read_level(alloc, cursor, depth, Level::Product),
        Level::Product => read_factor(alloc, cursor, depth),
    }
}

// Adds an operator and its operand. The first one reserves memory for one only.
#[inline(never)]
fn add_link(links: &mut Vec<Link>, op: Op, term: Box<Term>) -> Result<(), AllocError>
    ensures { OnOk result (links.new.items ≡ links.old.items ++ link op term.value ∷ []) }
{
    if links.is_empty() {
        links.reserve_exact(1)?;
    }
    let term = Box::into_inner(term);
    links.push(Link { op, term })?;
    Ok(())
}

// { operator operand }
#[cycle(read)]
fn read_links(
    alloc: Global,
    cursor: &mut Cursor<'_>,
    depth: u32,
    level: Level,
) -> Result<Vec<Link>, TermFault>
    ensures reads { GivesBy (λ v. v.items) result (links_at (operator_at level) (operand_at (inner_at depth) level) cursor.old) cursor.new }
    ensures shorter { OnOk result (length cursor.new ≤ length cursor.old) }
{
    let mut links = Vec::new(alloc);
    'links: while let Some(op) = cursor.take_operator(level) {
        let term = match read_operand(alloc, cursor, depth, level) {
            Ok(term) => term,
            Err(fault) => return Err(without(links, fault)),
        };
        match add_link(&mut links, op, term) {
            Ok(()) => {}
            Err(AllocError) => return Err(without(links, TermFault::Memory)),
        }
    }
    Ok(links)
}

// [ comparison sum | [ "non" ] "dans" "(" members ")" ], after a sum
#[cycle(read)]
#[tactic(auto, unfolding(crate::specs::inner::Reading::relation_at))]
fn read_relation(alloc: Global, cursor: &mut Cursor<'_>, depth: u32) -> Result<Box<Term>, TermFault>
    ensures reads { GivesBy (λ t. t.value) result (relation_at (inner_at depth) cursor.old) cursor.new }
    ensures shorter { OnOk result (length cursor.new < length cursor.old) }
{
    let first = read_level(alloc, cursor, depth, Level::Sum)?;
    let Some(op) = cursor.take_comparison() else {
        return read_membership(alloc, cursor, first);
    };
    match read_level(alloc, cursor, depth, Level::Sum) {
        Ok(second) => Ok(applied_to_two(alloc, op, first, second)?),
        Err(fault) => Err(without(first, fault)),
    }
}

// [ [ "non" ] "dans" "(" members ")" ], after a term
#[inline(never)]
#[tactic(auto, unfolding(crate::specs::inner::Reading::membership_at, crate::specs::inner::Reading::outside_at))]
fn read_membership(
    alloc: Global,
    cursor: &mut Cursor<'_>,
    term: Box<Term>,
) -> Result<Box<Term>, TermFault>
    ensures reads { GivesBy (λ t. t.value) result (membership_at term.value cursor.old) cursor.new }
    ensures shorter { OnOk result (length cursor.new ≤ length cursor.old) }
{
    if cursor.take(Mark::OfKey(Key::Dans)) {
        return read_inside(alloc, cursor, term, false);
    }
    if !cursor.take(Mark::OfKey(Key::Non)) {
        return Ok(term);
    }
    if !cursor.take(Mark::OfKey(Key::Dans)) {
        return Err(without(term, TermFault::NoTerm));
    }
    read_inside(alloc, cursor, term, true)
}

// "(" members ")", after `dans`
#[inline(never)]
#[tactic(auto, unfolding(crate::specs::inner::Reading::inside_at))]
fn read_inside(
    alloc: Global,
    cursor: &mut Cursor<'_>,
    term: Box<Term>,
    negated: bool,
) -> Result<Box<Term>, TermFault>
    ensures reads { GivesBy (λ t. t.value) result (inside_at negated term.value cursor.old) cursor.new }
    ensures shorter { OnOk result (length cursor.new < length cursor.old) }
{
    let members = read_members(alloc, cursor)?;
    Ok(boxed(alloc, Node::Among(negated, term, members))?)
}

// [ "non" ] rel
#[cycle(read)]
#[tactic(auto, unfolding(crate::specs::inner::Reading::negation_at))]
fn read_negation(alloc: Global, cursor: &mut Cursor<'_>, depth: u32) -> Result<Box<Term>, TermFault>
    ensures reads { GivesBy (λ t. t.value) result (negation_at (inner_at depth) cursor.old) cursor.new }
    ensures shorter { OnOk result (length cursor.new < length cursor.old) }
{
    if !cursor.take(Mark::OfKey(Key::Non)) {
        return read_relation(alloc, cursor, depth);
    }
    let term = read_relation(alloc, cursor, depth)?;
    Ok(applied(alloc, Op::Not, term)?)
}

/// A term, whatever follows it.
pub fn expression(
    alloc: Global,
    cursor: &mut Cursor<'_>,
    depth: u32,
) -> Result<Box<Term>, TermFault>
    ensures reads { GivesBy (λ t. t.value) result (expr_at (inner_at depth) cursor.old) cursor.new }
    ensures shorter { OnOk result (length cursor.new < length cursor.old) }
{
    read_level(alloc, cursor, depth, Level::Disjunction)
}
