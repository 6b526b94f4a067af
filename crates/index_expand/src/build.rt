//! Constructors of boxed terms. The expansion recurses up to 256 levels: what builds or drops terms
//! is a separate function, never inlined, so that the stack frames of a level stay small.
ghost use Rattle.std.specs.Prelude.{◌≡◌, ◌∷◌, ◌++◌, [], ◌<◌, ◌≤◌, IfOk, OnOk, IsTrue, length};
ghost use Rattle.std.specs.Bool.{OnTrue};
ghost use Rattle.std.specs.Str.Parse.{digits_value};
ghost use Rattle.m_fixed.specs.Text.{only_digits};
ghost use Rattle.m_ast.specs.PlainView.{syntax_of};
ghost use Rattle.m_ast.specs.Syntax as tree;
ghost use Rattle.loop_values.specs.Letters.{replaced};
ghost use Rattle.index_expand.specs.Terms as spec;
ghost use Rattle.index_expand.specs.inner.Operands.{links_sum, chain_of};

use crate::words::{Words, instance, is_free_in, most_bytes, named, same};
use loop_values::{is_digits, number, replaced_within};
use m_ast::{PLink, PMember, PNode, PTerm, PlainName, plain};
use m_fixed::{Amount, Op, Value};
use m_places::{Name, Place};
use std::alloc::{AllocError, Global};

/// Drops a partial result and returns the error.
#[inline(never)]
pub(crate) fn without<T: Drop>(_made: T, error: AllocError) -> AllocError {
    error
}

/// A node in a box. The only error of all these functions is out of memory.
#[inline(never)]
pub(crate) fn boxed(alloc: Global, node: PNode) -> Result<Box<PTerm>, AllocError>
    ensures { IfOk result (λ t. t.value ≡ syntax_of node) }
{
    Ok(Box::new(alloc, plain(node))?)
}

// A literal, in whole units.
fn number_node(n: u64) -> PNode
    requires { n < 1000000000000 }
    ensures { syntax_of result ≡ spec.number_term n }
{
    match Amount::new(n as i128 * 1_000_000) {
        Some(amount) => PNode::Lit(Value::Num(amount)),
        None => unreachable!(),
    }
}

// The literal or the name that a word denotes after the substitution of its letters.
fn word_node(
    words: &Words<'_>,
    letters: &[Option<Name>],
    word: &Name,
    place: Place,
) -> Result<PNode, AllocError>
    requires { length letters.now ≡ 256 }
    ensures { IfOk result (λ node. syntax_of node ≡ spec.word_term (replaced letters.now word.now) place) }
{
    if is_free_in(words, letters, word.bytes()) {
        return free_node(words, word, place);
    }
    let most = most_bytes(words).max(DIGITS);
    match replaced_within(words.alloc, letters, word.bytes(), most)? {
        None => Ok(PNode::Named(instance(words, letters, word)?, place)),
        Some(bytes) => short_node(words, letters, word, bytes.as_slice(), place),
    }
}

// The same for a word without bound letters.
fn free_node(words: &Words<'_>, word: &Name, place: Place) -> Result<PNode, AllocError>
    ensures { IfOk result (λ node. syntax_of node ≡ spec.word_term word.now place) }
{
    if is_number_word(word.bytes()) {
        Ok(literal(word.bytes()))
    } else {
        Ok(PNode::Named(same(words, word)?, place))
    }
}

// The literal that a word of digits denotes.
fn literal(word: &[u8]) -> PNode
    requires digits { IsTrue (only_digits word.now) }
    requires short { length word.now ≤ 12 }
    ensures { syntax_of result ≡ spec.number_term (digits_value 10 word.now) }
{
    number_node(number(word))
}

// The same for a word, given with its letters replaced.
fn short_node(
    words: &Words<'_>,
    letters: &[Option<Name>],
    word: &Name,
    bytes: &[u8],
    place: Place,
) -> Result<PNode, AllocError>
    requires letters { length letters.now ≡ 256 }
    requires bytes { bytes.now ≡ replaced letters.now word.now }
    ensures { IfOk result (λ node. syntax_of node ≡ spec.word_term bytes.now place) }
{
    if is_number_word(bytes) {
        Ok(literal(bytes))
    } else {
        Ok(PNode::Named(named(words, letters, word, bytes)?, place))
    }
}

/// The most digits of a word that is a number.
const DIGITS: usize = 12;

fn is_number_word(word: &[u8]) -> bool
    ensures test { result ≡ spec.is_number_word word.now }
    ensures short { OnTrue result (length word.now ≤ 12) }
    ensures digits { OnTrue result (IsTrue (only_digits word.now)) }
{
    is_digits(word) && word.len() <= DIGITS
}

fn x_node(cell: Option<u32>, place: Place) -> PNode
    ensures { syntax_of result ≡ spec.x_term cell place }
{
    match cell {
        Some(k) => number_node(k as u64),
        None => PNode::X(place),
    }
}

/// A word after the substitution of its letters.
#[inline(never)]
pub(crate) fn word_with(
    words: &Words<'_>,
    letters: &[Option<Name>],
    word: &Name,
) -> Result<PlainName, AllocError>
    requires { length letters.now ≡ 256 }
    ensures { IfOk result (λ name. name ≡ replaced letters.now word.now) }
{
    if is_free_in(words, letters, word.bytes()) {
        return same(words, word);
    }
    match replaced_within(words.alloc, letters, word.bytes(), most_bytes(words))? {
        None => instance(words, letters, word),
        Some(bytes) => named(words, letters, word, bytes.as_slice()),
    }
}

/// The literal or the name that a word denotes after the substitution of its letters.
#[inline(never)]
pub(crate) fn boxed_word(
    words: &Words<'_>,
    letters: &[Option<Name>],
    word: &Name,
    place: Place,
) -> Result<Box<PTerm>, AllocError>
    requires { length letters.now ≡ 256 }
    ensures { IfOk result (λ t. t.value ≡ spec.word_term (replaced letters.now word.now) place) }
{
    let node = word_node(words, letters, word, place)?;
    boxed(words.alloc, node)
}

/// A literal.
#[inline(never)]
pub(crate) fn boxed_value(alloc: Global, value: &Value) -> Result<Box<PTerm>, AllocError>
    ensures { IfOk result (λ t. t.value ≡ tree.lit value.now) }
{
    boxed(alloc, PNode::Lit(*value))
}

/// The expansion of `X`: a literal if `cell` is given, `X` otherwise.
#[inline(never)]
pub(crate) fn boxed_x(
    alloc: Global,
    cell: Option<u32>,
    place: Place,
) -> Result<Box<PTerm>, AllocError>
    ensures { IfOk result (λ t. t.value ≡ spec.x_term cell place) }
{
    boxed(alloc, x_node(cell, place))
}

/// Appends a term.
#[inline(never)]
pub(crate) fn add_term(terms: &mut Vec<PTerm>, term: Box<PTerm>) -> Result<(), AllocError>
    ensures { OnOk result (terms.new.items ≡ terms.old.items ++ term.value ∷ []) }
{
    terms.push(Box::into_inner(term))?;
    Ok(())
}

/// Appends an operator and its operand.
#[inline(never)]
pub(crate) fn add_link(links: &mut Vec<PLink>, op: Op, term: Box<PTerm>) -> Result<(), AllocError>
    ensures { OnOk result (links.new.items ≡ links.old.items ++ record { op = op; term = term.value } ∷ []) }
{
    links.push(PLink {
        op,
        term: Box::into_inner(term),
    })?;
    Ok(())
}

/// Appends a member from a low to a high end.
#[inline(never)]
pub(crate) fn add_member(
    members: &mut Vec<PMember>,
    low: Box<PTerm>,
    high: Box<PTerm>,
) -> Result<(), AllocError>
    ensures { OnOk result (members.new.items ≡ members.old.items ++ record { low = low.value; high = high.value } ∷ []) }
{
    members.push(PMember {
        low: Box::into_inner(low),
        high: Box::into_inner(high),
    })?;
    Ok(())
}

/// The sum of terms in order, given as links whose operators are `+`. The sum of one term is that
/// term.
#[inline(never)]
pub(crate) fn summed(alloc: Global, links: Vec<PLink>) -> Result<Box<PTerm>, AllocError>
    ensures { IfOk result (λ t. t.value ≡ links_sum links.items) }
{
    let mut links = links;
    if links.is_empty() {
        return boxed(alloc, PNode::Lit(Value::Undef));
    }
    let first = links.remove(0);
    let first = Box::new(alloc, first.term)?;
    with_links(alloc, first, links)
}

// A chain; without links, its first operand.
fn with_links(alloc: Global, first: Box<PTerm>, links: Vec<PLink>) -> Result<Box<PTerm>, AllocError>
    ensures { IfOk result (λ t. t.value ≡ chain_of first.value links.items) }
{
    if links.is_empty() {
        Ok(first)
    } else {
        boxed(alloc, PNode::Chain(first, links))
    }
}
