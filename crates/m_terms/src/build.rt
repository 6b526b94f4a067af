//! Constructors of boxed terms.
ghost use Rattle.std.specs.Prelude.{◌≡◌, IfOk};
ghost use Rattle.m_ast.specs.View.{syntax_of};
ghost use Rattle.m_terms.specs.Grammar.{one, two, three, gathered};

use crate::fault::TermFault;
use m_ast::{Link, Node, Term, made};
use m_fixed::Op;
use std::alloc::{AllocError, Global};

/// Drops a partial result and returns the error. Readers recurse up to 256 levels: what builds or
/// drops terms is a separate function, never inlined, so that their stack frames stay small.
#[inline(never)]
pub fn without<T: Drop>(_read: T, fault: TermFault) -> TermFault
    ensures { result ≡ fault }
{
    fault
}

/// A node in a box.
#[inline(never)]
pub fn boxed(alloc: Global, node: Node) -> Result<Box<Term>, AllocError>
    ensures { IfOk result (λ t. t.value ≡ syntax_of node) }
{
    Ok(Box::new(alloc, made(node))?)
}

/// An operator on one term.
#[inline(never)]
pub fn applied(alloc: Global, op: Op, a: Box<Term>) -> Result<Box<Term>, AllocError>
    ensures { IfOk result (λ t. t.value ≡ one op a.value) }
{
    let mut arguments = Vec::with_capacity(alloc, 1)?;
    arguments.push(Box::into_inner(a))?;
    boxed(alloc, Node::Apply(op, arguments))
}

/// An operator on two terms.
#[inline(never)]
pub fn applied_to_two(
    alloc: Global,
    op: Op,
    a: Box<Term>,
    b: Box<Term>,
) -> Result<Box<Term>, AllocError>
    ensures { IfOk result (λ t. t.value ≡ two op a.value b.value) }
{
    let mut arguments = Vec::with_capacity(alloc, 2)?;
    arguments.push(Box::into_inner(a))?;
    arguments.push(Box::into_inner(b))?;
    boxed(alloc, Node::Apply(op, arguments))
}

/// An operator on three terms.
#[inline(never)]
pub fn applied_to_three(
    alloc: Global,
    op: Op,
    a: Box<Term>,
    b: Box<Term>,
    c: Box<Term>,
) -> Result<Box<Term>, AllocError>
    ensures { IfOk result (λ t. t.value ≡ three op a.value b.value c.value) }
{
    let mut arguments = Vec::with_capacity(alloc, 3)?;
    arguments.push(Box::into_inner(a))?;
    arguments.push(Box::into_inner(b))?;
    arguments.push(Box::into_inner(c))?;
    boxed(alloc, Node::Apply(op, arguments))
}

/// A chain of a first operand and links; without links, the operand alone.
#[inline(never)]
pub fn chained(alloc: Global, first: Box<Term>, links: Vec<Link>) -> Result<Box<Term>, AllocError>
    ensures { IfOk result (λ t. t.value ≡ gathered first.value links.items) }
{
    if links.is_empty() {
        return Ok(first);
    }
    let mut links = links;
    links.shrink_to_fit();
    boxed(alloc, Node::Chain(first, links))
}
