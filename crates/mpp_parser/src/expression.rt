//! Parses terms.
ghost use Rattle.std.specs.Prelude.{◌≡◌, ◌<◌, ◌≤◌, length, IfOk, OnOk, codes};
ghost use Rattle.m_places.specs.declared.limits.TheConstants.{BRACKET_DEPTH};
ghost use Rattle.std.specs.Str.{bytes_eq};
ghost use Rattle.mpp_lexer.specs.declared.piece.DriverSign.TheVariants.{CloseParen};
ghost use Rattle.mpp_parser.specs.Keywords.{keyword_of};
ghost use Rattle.mpp_parser.specs.TermView.{term_of};
ghost use Rattle.mpp_parser.specs.Grammar.{unary, binary, cast_of, tax_benefit};
ghost use Rattle.mpp_parser.specs.inner.Reading.{GivesBy, until_at, enclosed_at, cell_at, cell_rest_at, kind_at, numbers_at, word_prim_at, prim_at};
ghost use Rattle.mpp_parser.specs.inner.Reading.{factor_at, sum_at, relation_at, negation_at, part_at, operator_of, links_at, gathered_at, inner_at, term_at};

use crate::cursor::Pieces;
use crate::keyword::{Keyword, keyword_of};
use crate::term::{CellName, DLink, DNode, DTerm, Kind, term_made};
use crate::unread::Unread;
use m_fixed::{Amount, Op, Value};
use m_places::limits::BRACKET_DEPTH;
use m_places::{Name, Seq};
use mpp_lexer::{DriverPiece, DriverSign};
use std::alloc::{AllocError, Global};

/// The levels of left-associative operators, from the loosest to the tightest.
#[derive(Clone, Copy, Debug, PartialEq, Eq)]
pub enum Prec {
    Or,
    And,
    Sum,
    Product,
}

// Boxes a node.
fn boxed(alloc: Global, node: DNode) -> Result<Box<DTerm>, AllocError>
    ensures { IfOk result (λ t. t.value ≡ term_of node) }
{
    Ok(Box::new(alloc, term_made(node))?)
}

// An operator on one argument.
fn unary(alloc: Global, op: Op, term: Box<DTerm>) -> Result<Box<DTerm>, AllocError>
    ensures { IfOk result (λ t. t.value ≡ unary op term.value) }
{
    let mut arguments = Vec::new(alloc);
    arguments.push(Box::into_inner(term))?;
    boxed(alloc, DNode::Apply(op, arguments))
}

// An operator on two arguments.
fn binary(
    alloc: Global,
    op: Op,
    first: Box<DTerm>,
    second: Box<DTerm>,
) -> Result<Box<DTerm>, AllocError>
    ensures { IfOk result (λ t. t.value ≡ binary op first.value second.value) }
{
    let mut arguments = Vec::new(alloc);
    arguments.push(Box::into_inner(first))?;
    arguments.push(Box::into_inner(second))?;
    boxed(alloc, DNode::Apply(op, arguments))
}

// A cell's name plus 0.
fn cast(alloc: Global, cell: CellName) -> Result<Box<DTerm>, AllocError>
    ensures { IfOk result (λ t. t.value ≡ cast_of cell) }
{
    let named = boxed(alloc, DNode::Named(cell))?;
    let zero = boxed(alloc, DNode::Lit(Value::Num(Amount::zero())))?;
    let mut links = Vec::new(alloc);
    links.push(DLink {
        op: Op::Add,
        term: Box::into_inner(zero),
    })?;
    boxed(alloc, DNode::Chain(named, links))
}

/// [ "[" WHOLE "]" ], after the name
#[tactic(auto, unfolding(crate::specs::inner::Reading::cell_rest_at, crate::specs::inner::Reading::bracket_at))]
pub fn read_cell_rest(
    alloc: Global,
    cursor: &mut Pieces<'_>,
    name: &Name,
) -> Result<CellName, Unread>
    ensures reads { GivesBy (λ c. c) result (cell_rest_at name.now cursor.old) cursor.new }
    ensures shorter { OnOk result (length cursor.new ≤ length cursor.old) }
{
    let name = name.copy(alloc)?;
    if !cursor.take_sign(DriverSign::OpenBracket) {
        return Ok(CellName { name, index: None });
    }
    let Some(index) = cursor.read_index() else {
        return Err(Unread::NotSpelled);
    };
    if !cursor.take_sign(DriverSign::CloseBracket) {
        return Err(Unread::NotSpelled);
    }
    Ok(CellName {
        name,
        index: Some(index),
    })
}

/// WORD [ "[" WHOLE "]" ]
#[tactic(auto, unfolding(crate::specs::inner::Reading::cell_at))]
pub fn read_cell(alloc: Global, cursor: &mut Pieces<'_>) -> Result<CellName, Unread>
    ensures reads { GivesBy (λ c. c) result (cell_at cursor.old) cursor.new }
    ensures shorter { OnOk result (length cursor.new < length cursor.old) }
{
    let Some(word) = cursor.read_word() else {
        return Err(Unread::NotSpelled);
    };
    read_cell_rest(alloc, cursor, word)
}

// NUMBER { "," NUMBER }
#[tactic(auto, unfolding(crate::specs::inner::Reading::numbers_at))]
fn read_numbers(alloc: Global, cursor: &mut Pieces<'_>) -> Result<Vec<Amount>, Unread>
    ensures reads { GivesBy (λ v. v.items) result (numbers_at cursor.old) cursor.new }
    ensures shorter { OnOk result (length cursor.new < length cursor.old) }
{
    let mut numbers = Vec::new(alloc);
    let Some(first) = cursor.read_number() else {
        return Err(Unread::NotSpelled);
    };
    numbers.push(first)?;
    'numbers: while cursor.take_sign(DriverSign::Comma) {
        let Some(number) = cursor.read_number() else {
            return Err(Unread::NotSpelled);
        };
        numbers.push(number)?;
    }
    Ok(numbers)
}

// `avfisc = 1, 2`
fn tax_benefit(alloc: Global) -> Result<Kind, AllocError>
    ensures { IfOk result (λ k. k ≡ tax_benefit) }
{
    let mut values = Vec::new(alloc);
    values.push(Amount::new(1_000_000).unwrap())?;
    values.push(Amount::new(2_000_000).unwrap())?;
    let name = Name::new(alloc, b"avfisc")?;
    Ok(Kind::Attribute(name, Seq::from_vec(values)))
}

// Whether a word is `taxbenefit`.
fn is_benefit(word: &Name) -> bool
    ensures { result ≡ bytes_eq word.now (codes "taxbenefit") }
{
    word.bytes() == b"taxbenefit".as_slice()
}

/// "taxbenefit" | WORD "=" NUMBER { "," NUMBER }
#[tactic(auto, unfolding(crate::specs::inner::Reading::kind_at, crate::specs::inner::Reading::benefit_of))]
pub fn read_kind(alloc: Global, cursor: &mut Pieces<'_>) -> Result<Kind, Unread>
    ensures reads { GivesBy (λ k. k) result (kind_at cursor.old) cursor.new }
    ensures shorter { OnOk result (length cursor.new < length cursor.old) }
{
    let Some(word) = cursor.read_word() else {
        return Err(Unread::NotSpelled);
    };
    if cursor.take_sign(DriverSign::Assign) {
        let values = read_numbers(alloc, cursor)?;
        let name = word.copy(alloc)?;
        return Ok(Kind::Attribute(name, Seq::from_vec(values)));
    }
    if !is_benefit(word) {
        return Err(Unread::NotSpelled);
    }
    Ok(tax_benefit(alloc)?)
}

// "(" cell ")"
#[tactic(auto, unfolding(crate::specs::inner::Reading::enclosed_at))]
fn read_enclosed_cell(alloc: Global, cursor: &mut Pieces<'_>) -> Result<CellName, Unread>
    ensures reads { GivesBy (λ c. c) result (enclosed_at cell_at cursor.old) cursor.new }
    ensures shorter { OnOk result (length cursor.new < length cursor.old) }
{
    if !cursor.take_sign(DriverSign::OpenParen) {
        return Err(Unread::NotSpelled);
    }
    let cell = read_cell(alloc, cursor)?;
    if !cursor.take_sign(DriverSign::CloseParen) {
        return Err(Unread::NotSpelled);
    }
    Ok(cell)
}

// "(" kind ")"
#[tactic(auto, unfolding(crate::specs::inner::Reading::enclosed_at))]
fn read_enclosed_kind(alloc: Global, cursor: &mut Pieces<'_>) -> Result<Kind, Unread>
    ensures reads { GivesBy (λ k. k) result (enclosed_at kind_at cursor.old) cursor.new }
    ensures shorter { OnOk result (length cursor.new < length cursor.old) }
{
    if !cursor.take_sign(DriverSign::OpenParen) {
        return Err(Unread::NotSpelled);
    }
    let kind = read_kind(alloc, cursor)?;
    if !cursor.take_sign(DriverSign::CloseParen) {
        return Err(Unread::NotSpelled);
    }
    Ok(kind)
}

// After a word: a cell, or "present", "cast" or "exists" with brackets
#[tactic(auto, unfolding(crate::specs::inner::Reading::word_prim_at))]
fn read_word_prim(alloc: Global, cursor: &mut Pieces<'_>, word: &Name) -> Result<Box<DTerm>, Unread>
    ensures reads { GivesBy (λ t. t.value) result (word_prim_at word.now (keyword_of word.now) cursor.old) cursor.new }
    ensures shorter { OnOk result (length cursor.new ≤ length cursor.old) }
{
    match keyword_of(word.bytes()) {
        None => {
            let cell = read_cell_rest(alloc, cursor, word)?;
            Ok(boxed(alloc, DNode::Named(cell))?)
        }
        Some(Keyword::Present) => {
            let cell = read_enclosed_cell(alloc, cursor)?;
            let named = boxed(alloc, DNode::Named(cell))?;
            Ok(unary(alloc, Op::Present, named)?)
        }
        Some(Keyword::Cast) => {
            let cell = read_enclosed_cell(alloc, cursor)?;
            Ok(cast(alloc, cell)?)
        }
        Some(Keyword::Exists) => {
            let kind = read_enclosed_kind(alloc, cursor)?;
            Ok(boxed(alloc, DNode::Exists(kind))?)
        }
        Some(_) => Err(Unread::NotSpelled),
    }
}

// A term in brackets, in which at most `depth` further brackets are nested.
#[cycle(read)]
fn read_inner(alloc: Global, cursor: &mut Pieces<'_>, depth: u32) -> Result<Box<DTerm>, Unread>
    ensures reads { GivesBy (λ t. t.value) result (inner_at depth cursor.old) cursor.new }
    ensures shorter { OnOk result (length cursor.new < length cursor.old) }
{
    if depth == 0 {
        return Err(Unread::NotSpelled);
    }
    read_level(alloc, cursor, depth - 1, Prec::Or)
}

// A term and ")".
#[cycle(read)]
#[tactic(auto, unfolding(crate::specs::inner::Reading::until_at))]
fn read_brackets(alloc: Global, cursor: &mut Pieces<'_>, depth: u32) -> Result<Box<DTerm>, Unread>
    ensures reads { GivesBy (λ t. t.value) result (until_at (inner_at depth) CloseParen cursor.old) cursor.new }
    ensures shorter { OnOk result (length cursor.new < length cursor.old) }
{
    let term = read_inner(alloc, cursor, depth)?;
    if !cursor.take_sign(DriverSign::CloseParen) {
        return Err(Unread::NotSpelled);
    }
    Ok(term)
}

// NUMBER | WORD .. | "(" term ")"
#[cycle(read)]
#[tactic(auto, unfolding(crate::specs::inner::Reading::prim_at))]
fn read_prim(alloc: Global, cursor: &mut Pieces<'_>, depth: u32) -> Result<Box<DTerm>, Unread>
    ensures reads { GivesBy (λ t. t.value) result (prim_at (inner_at depth) cursor.old) cursor.new }
    ensures shorter { OnOk result (length cursor.new < length cursor.old) }
{
    match cursor.next() {
        Some(DriverPiece::Number(amount, _)) => {
            Ok(boxed(alloc, DNode::Lit(Value::Num(*amount)))?)
        }
        Some(DriverPiece::Word(word)) => read_word_prim(alloc, cursor, word),
        Some(DriverPiece::Sign(DriverSign::OpenParen)) => read_brackets(alloc, cursor, depth),
        _ => Err(Unread::NotSpelled),
    }
}

// [ "-" ] prim
#[cycle(read)]
#[tactic(auto, unfolding(crate::specs::inner::Reading::factor_at))]
fn read_factor(alloc: Global, cursor: &mut Pieces<'_>, depth: u32) -> Result<Box<DTerm>, Unread>
    ensures reads { GivesBy (λ t. t.value) result (factor_at (inner_at depth) cursor.old) cursor.new }
    ensures shorter { OnOk result (length cursor.new < length cursor.old) }
{
    if !cursor.take_sign(DriverSign::Minus) {
        return read_prim(alloc, cursor, depth);
    }
    let term = read_prim(alloc, cursor, depth)?;
    Ok(unary(alloc, Op::Neg, term)?)
}

// sum [ comparison sum ]
#[cycle(read)]
#[tactic(auto, unfolding(crate::specs::inner::Reading::relation_at))]
fn read_relation(alloc: Global, cursor: &mut Pieces<'_>, depth: u32) -> Result<Box<DTerm>, Unread>
    ensures reads { GivesBy (λ t. t.value) result (relation_at (inner_at depth) cursor.old) cursor.new }
    ensures shorter { OnOk result (length cursor.new < length cursor.old) }
{
    let first = read_level(alloc, cursor, depth, Prec::Sum)?;
    let Some(operator) = cursor.take_comparison() else {
        return Ok(first);
    };
    let second = read_level(alloc, cursor, depth, Prec::Sum)?;
    Ok(binary(alloc, operator, first, second)?)
}

// [ "not" ] relation
#[cycle(read)]
#[tactic(auto, unfolding(crate::specs::inner::Reading::negation_at))]
fn read_negation(alloc: Global, cursor: &mut Pieces<'_>, depth: u32) -> Result<Box<DTerm>, Unread>
    ensures reads { GivesBy (λ t. t.value) result (negation_at (inner_at depth) cursor.old) cursor.new }
    ensures shorter { OnOk result (length cursor.new < length cursor.old) }
{
    if !cursor.take_key(Keyword::Not) {
        return read_relation(alloc, cursor, depth);
    }
    let term = read_relation(alloc, cursor, depth)?;
    Ok(unary(alloc, Op::Not, term)?)
}

// The operands of a level.
#[cycle(read)]
fn read_part(
    alloc: Global,
    cursor: &mut Pieces<'_>,
    depth: u32,
    level: Prec,
) -> Result<Box<DTerm>, Unread>
    ensures reads { GivesBy (λ t. t.value) result (part_at (inner_at depth) level cursor.old) cursor.new }
    ensures shorter { OnOk result (length cursor.new < length cursor.old) }
{
    match level {
        Prec::Or => read_level(alloc, cursor, depth, Prec::And),
        Prec::And => read_negation(alloc, cursor, depth),
        Prec::Sum => read_level(alloc, cursor, depth, Prec::Product),
        Prec::Product => read_factor(alloc, cursor, depth),
    }
}

// part { operator part }
#[cycle(read)]
#[tactic(auto, unfolding(crate::specs::inner::Reading::gathered_at))]
fn read_level(
    alloc: Global,
    cursor: &mut Pieces<'_>,
    depth: u32,
    level: Prec,
) -> Result<Box<DTerm>, Unread>
    ensures reads { GivesBy (λ t. t.value) result (gathered_at (operator_of level) (part_at (inner_at depth) level) cursor.old) cursor.new }
    ensures shorter { OnOk result (length cursor.new < length cursor.old) }
{
    let first = read_part(alloc, cursor, depth, level)?;
    let links = read_links(alloc, cursor, depth, level)?;
    if links.is_empty() {
        return Ok(first);
    }
    Ok(boxed(alloc, DNode::Chain(first, links))?)
}

// { operator part }
#[cycle(read)]
fn read_links(
    alloc: Global,
    cursor: &mut Pieces<'_>,
    depth: u32,
    level: Prec,
) -> Result<Vec<DLink>, Unread>
    ensures reads { GivesBy (λ v. v.items) result (links_at (operator_of level) (part_at (inner_at depth) level) cursor.old) cursor.new }
    ensures shorter { OnOk result (length cursor.new ≤ length cursor.old) }
{
    let mut links = Vec::new(alloc);
    'links: while let Some(op) = cursor.take_operator(level) {
        let term = read_part(alloc, cursor, depth, level)?;
        links.push(DLink {
            op,
            term: Box::into_inner(term),
        })?;
    }
    Ok(links)
}

/// conjunction { "or" conjunction }
#[tactic(auto, unfolding(crate::specs::inner::Reading::term_at))]
pub fn read_term(alloc: Global, cursor: &mut Pieces<'_>) -> Result<Box<DTerm>, Unread>
    ensures reads { GivesBy (λ t. t.value) result (term_at cursor.old) cursor.new }
    ensures shorter { OnOk result (length cursor.new < length cursor.old) }
{
    read_level(alloc, cursor, BRACKET_DEPTH, Prec::Or)
}
