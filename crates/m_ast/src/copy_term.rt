//! Copies of terms.
ghost use Rattle.std.specs.Prelude.{◌≡◌, IfOk};
ghost use Rattle.m_ast.specs.View.{syntax_of};

use crate::{Link, Member, Node, Term, made};
use std::alloc::{AllocError, Global};

impl Term {
    /// An equal term. Its only error is running out of memory.
    pub fn copy(&self, alloc: Global) -> Result<Term, AllocError>
        ensures { IfOk result (λ t. t ≡ self.now) }
    {
        let term = copied(alloc, self)?;
        Ok(Box::into_inner(term))
    }
}

// A boxed term.
fn boxed(alloc: Global, node: Node) -> Result<Box<Term>, AllocError>
    ensures { IfOk result (λ t. t.value ≡ syntax_of node) }
{
    Ok(Box::new(alloc, made(node))?)
}

#[cycle(copied)]
fn copied(alloc: Global, term: &Term) -> Result<Box<Term>, AllocError>
    ensures { IfOk result (λ t. t.value ≡ term.now) }
{
    match &term.node {
        Node::Lit(value) => boxed(alloc, Node::Lit(*value)),
        Node::Named(name, place) => boxed(alloc, Node::Named(name.copy(alloc)?, *place)),
        Node::X(place) => boxed(alloc, Node::X(*place)),
        Node::Cell(name, index, place) => {
            let index = copied(alloc, index)?;
            boxed(alloc, Node::Cell(name.copy(alloc)?, index, *place))
        }
        Node::Apply(op, arguments) => {
            boxed(alloc, Node::Apply(*op, copied_terms(alloc, arguments)?))
        }
        Node::Chain(first, links) => {
            let first = copied(alloc, first)?;
            boxed(alloc, Node::Chain(first, copied_links(alloc, links)?))
        }
        Node::Among(negated, first, members) => {
            let first = copied(alloc, first)?;
            boxed(
                alloc,
                Node::Among(*negated, first, copied_members(alloc, members)?),
            )
        }
        Node::Loop(header, body) => {
            let body = copied(alloc, body)?;
            boxed(alloc, Node::Loop(header.copy(alloc)?, body))
        }
    }
}

#[cycle(copied)]
fn copied_terms(alloc: Global, terms: &[Term]) -> Result<Vec<Term>, AllocError>
    ensures { IfOk result (λ v. v.items ≡ terms.now) }
{
    let mut copies = Vec::with_capacity(alloc, terms.len())?;
    for term in terms {
        let copy = copied(alloc, term)?;
        copies.push(Box::into_inner(copy))?;
    }
    Ok(copies)
}

#[cycle(copied)]
fn copied_links(alloc: Global, links: &[Link]) -> Result<Vec<Link>, AllocError>
    ensures { IfOk result (λ v. v.items ≡ links.now) }
{
    let mut copies = Vec::with_capacity(alloc, links.len())?;
    for link in links {
        let term = copied(alloc, &link.term)?;
        copies.push(Link {
            op: link.op,
            term: Box::into_inner(term),
        })?;
    }
    Ok(copies)
}

#[cycle(copied)]
fn copied_members(alloc: Global, members: &[Member]) -> Result<Vec<Member>, AllocError>
    ensures { IfOk result (λ v. v.items ≡ members.now) }
{
    let mut copies = Vec::with_capacity(alloc, members.len())?;
    for member in members {
        let low = copied(alloc, &member.low)?;
        let high = copied(alloc, &member.high)?;
        copies.push(Member {
            low: Box::into_inner(low),
            high: Box::into_inner(high),
        })?;
    }
    Ok(copies)
}
