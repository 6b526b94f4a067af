//! Nested sums of one instance are joined into one, once per formula, so that an instance costs no
//! step for each of them.
ghost use Rattle.std.specs.Prelude.{◌≡◌, ◌++◌, IfOk, map};
ghost use Rattle.std.specs.Bool.{OnTrue};
ghost use Rattle.m_ast.specs.Syntax as tree;
ghost use Rattle.m_ast.specs.View.{syntax_of, terms_of, links_of, members_of};
ghost use Rattle.loop_values.specs.Headers as spec;
ghost use Rattle.loop_values.specs.Letters.{Letters};
ghost use Rattle.index_expand.specs.inner.Meanings.{meaning, link_meaning, member_meaning};

use crate::build::without;
use loop_values::{instance_count, joined_indexes};
use m_ast::{Header, Link, Member, Node, Term, made};
use m_fixed::Op;
use m_places::{Name, Place, Seq};
use std::alloc::{AllocError, Global};

/// Whether a sum is the whole body of another sum anywhere in a term. Takes no memory.
#[cycle(has_nested)]
pub(crate) fn has_nested(term: &Term) -> bool {
    match &term.node {
        Node::Lit(_) | Node::Named(_, _) | Node::X(_) => false,
        Node::Cell(_, index, _) => has_nested(index),
        Node::Apply(_, arguments) => term_has_nested(arguments),
        Node::Chain(first, links) => has_nested(first) || link_has_nested(links),
        Node::Among(_, first, members) => has_nested(first) || member_has_nested(members),
        Node::Loop(_, body) => is_sum(body) || has_nested(body),
    }
}

fn is_sum(term: &Term) -> bool {
    matches!(&term.node, Node::Loop(_, _))
}

#[cycle(has_nested)]
fn term_has_nested(terms: &[Term]) -> bool {
    for term in terms {
        if has_nested(term) {
            return true;
        }
    }
    false
}

#[cycle(has_nested)]
fn link_has_nested(links: &[Link]) -> bool {
    for link in links {
        if has_nested(&link.term) {
            return true;
        }
    }
    false
}

#[cycle(has_nested)]
fn member_has_nested(members: &[Member]) -> bool {
    for member in members {
        if has_nested(&member.low) || has_nested(&member.high) {
            return true;
        }
    }
    false
}

/// A term of the same meaning, in which no sum of one instance is the whole body of another one.
/// The only error of all these functions is out of memory.
#[cycle(joined)]
pub(crate) fn joined(alloc: Global, term: &Term) -> Result<Box<Term>, AllocError>
    ensures { IfOk result (λ t. meaning t.value ≡ meaning term.now) }
{
    match &term.node {
        Node::Lit(value) => in_box(alloc, Node::Lit(*value)),
        Node::Named(word, place) => joined_word(alloc, word, *place),
        Node::X(place) => in_box(alloc, Node::X(*place)),
        Node::Cell(word, index, place) => joined_cell(alloc, word, index, *place),
        Node::Apply(op, arguments) => joined_apply(alloc, *op, arguments),
        Node::Chain(first, links) => joined_chain(alloc, first, links),
        Node::Among(negated, first, members) => joined_among(alloc, *negated, first, members),
        Node::Loop(header, body) => joined_loop(alloc, header, body),
    }
}

// A node in a box.
#[inline(never)]
fn in_box(alloc: Global, node: Node) -> Result<Box<Term>, AllocError>
    ensures { IfOk result (λ t. meaning t.value ≡ meaning (syntax_of node)) }
{
    Ok(Box::new(alloc, made(node))?)
}

#[inline(never)]
fn joined_word(alloc: Global, word: &Name, place: Place) -> Result<Box<Term>, AllocError>
    ensures { IfOk result (λ t. meaning t.value ≡ meaning (tree.named word.now place)) }
{
    in_box(alloc, Node::Named(word.copy(alloc)?, place))
}

#[inline(never)]
#[cycle(joined)]
fn joined_cell(
    alloc: Global,
    word: &Name,
    index: &Term,
    place: Place,
) -> Result<Box<Term>, AllocError>
    ensures { IfOk result (λ t. meaning t.value ≡ meaning (tree.cell word.now index.now place)) }
{
    let index = joined(alloc, index)?;
    match word.copy(alloc) {
        Ok(word) => in_box(alloc, Node::Cell(word, index, place)),
        Err(error) => Err(without(index, error)),
    }
}

#[inline(never)]
#[cycle(joined)]
fn joined_apply(alloc: Global, op: Op, arguments: &[Term]) -> Result<Box<Term>, AllocError>
    ensures { IfOk result (λ t. meaning t.value ≡ meaning (tree.apply op (terms_of arguments.now))) }
{
    let arguments = joined_terms(alloc, arguments)?;
    in_box(alloc, Node::Apply(op, arguments))
}

#[inline(never)]
#[cycle(joined)]
fn joined_chain(alloc: Global, first: &Term, links: &[Link]) -> Result<Box<Term>, AllocError>
    ensures { IfOk result (λ t. meaning t.value ≡ meaning (tree.chain first.now (links_of links.now))) }
{
    let first = joined(alloc, first)?;
    match joined_links(alloc, links) {
        Ok(links) => in_box(alloc, Node::Chain(first, links)),
        Err(error) => Err(without(first, error)),
    }
}

#[inline(never)]
#[cycle(joined)]
fn joined_among(
    alloc: Global,
    negated: bool,
    first: &Term,
    members: &[Member],
) -> Result<Box<Term>, AllocError>
    ensures { IfOk result (λ t. meaning t.value ≡ meaning (tree.among negated first.now (members_of members.now))) }
{
    let first = joined(alloc, first)?;
    match joined_members(alloc, members) {
        Ok(members) => in_box(alloc, Node::Among(negated, first, members)),
        Err(error) => Err(without(first, error)),
    }
}

// A sum, joined with its body if both are sums of one instance.
#[inline(never)]
#[cycle(joined)]
fn joined_loop(alloc: Global, header: &Header, body: &Term) -> Result<Box<Term>, AllocError>
    ensures { IfOk result (λ t. meaning t.value ≡ meaning (tree.loop header.now body.now)) }
{
    let body = joined(alloc, body)?;
    let body = Box::into_inner(body);
    loop_over(alloc, header, body.node)
}

// A sum with this body.
#[inline(never)]
fn loop_over(alloc: Global, header: &Header, body: Node) -> Result<Box<Term>, AllocError>
    ensures { IfOk result (λ t. meaning t.value ≡ meaning (tree.loop header.now (syntax_of body))) }
{
    match body {
        Node::Loop(inner, rest) => loop_over_loop(alloc, header, inner, rest),
        body => {
            let body = in_box(alloc, body)?;
            loop_with(alloc, header, body)
        }
    }
}

// A sum of a sum with this body.
fn loop_over_loop(
    alloc: Global,
    header: &Header,
    inner: Header,
    body: Box<Term>,
) -> Result<Box<Term>, AllocError>
    ensures { IfOk result (λ t. meaning t.value ≡ meaning (tree.loop header.now (tree.loop inner body.value))) }
{
    if is_one(header) && is_one(&inner) {
        match joined_header(alloc, header, &inner) {
            Ok(header) => in_box(alloc, Node::Loop(header, body)),
            Err(error) => Err(without(body, error)),
        }
    } else {
        let body = in_box(alloc, Node::Loop(inner, body))?;
        loop_with(alloc, header, body)
    }
}

// Whether a header has one instance.
fn is_one(header: &Header) -> bool
    ensures { OnTrue result (spec.instance_count header.now.indexes ≡ 1) }
{
    instance_count(1, header.indexes.as_slice()) == 1
}

// A header with the instances of two, of which the second is the inner one.
fn joined_header(alloc: Global, outer: &Header, inner: &Header) -> Result<Header, AllocError>
    ensures { IfOk result (λ header. (letters : Letters)
        → spec.instances header.indexes letters ≡ spec.instances (outer.now.indexes ++ inner.now.indexes) letters) }
{
    let outer_indexes = outer.indexes.as_slice();
    let indexes = joined_indexes(alloc, outer_indexes, inner.indexes.as_slice())?;
    Ok(Header {
        place: outer.place,
        indexes: Seq::from_vec(indexes),
    })
}

fn loop_with(alloc: Global, header: &Header, body: Box<Term>) -> Result<Box<Term>, AllocError>
    ensures { IfOk result (λ t. meaning t.value ≡ meaning (tree.loop header.now body.value)) }
{
    match header.copy(alloc) {
        Ok(header) => in_box(alloc, Node::Loop(header, body)),
        Err(error) => Err(without(body, error)),
    }
}

#[cycle(joined)]
fn joined_terms(alloc: Global, terms: &[Term]) -> Result<Vec<Term>, AllocError>
    ensures { IfOk result (λ v. map meaning v.items ≡ map meaning terms.now) }
{
    let mut copies = Vec::with_capacity(alloc, terms.len())?;
    for term in terms {
        let copy = joined(alloc, term)?;
        copies.push(Box::into_inner(copy))?;
    }
    Ok(copies)
}

#[cycle(joined)]
fn joined_links(alloc: Global, links: &[Link]) -> Result<Vec<Link>, AllocError>
    ensures { IfOk result (λ v. map link_meaning v.items ≡ map link_meaning links.now) }
{
    let mut copies = Vec::with_capacity(alloc, links.len())?;
    for link in links {
        let term = joined(alloc, &link.term)?;
        copies.push(Link {
            op: link.op,
            term: Box::into_inner(term),
        })?;
    }
    Ok(copies)
}

#[cycle(joined)]
fn joined_members(alloc: Global, members: &[Member]) -> Result<Vec<Member>, AllocError>
    ensures { IfOk result (λ v. map member_meaning v.items ≡ map member_meaning members.now) }
{
    let mut copies = Vec::with_capacity(alloc, members.len())?;
    for member in members {
        let low = joined(alloc, &member.low)?;
        let high = joined(alloc, &member.high)?;
        copies.push(Member {
            low: Box::into_inner(low),
            high: Box::into_inner(high),
        })?;
    }
    Ok(copies)
}
