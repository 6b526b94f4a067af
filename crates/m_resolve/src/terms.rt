//! From terms over names to terms over cells.

ghost use Rattle.std.specs.Prelude.{◌≡◌, ◌∷◌, Ok, Err, [], false, IfOk};
ghost use Rattle.m_places.specs.Refusals.{Says};
ghost use Rattle.micro_m.specs.Trees.{cell as cell_tree, pick, apply, chain, none, more};
ghost use Rattle.micro_m.specs.Views.{tree_of, trees_of, steps_of};
ghost use Rattle.m_ast.specs.View.{terms_of};
ghost use Rattle.m_ast.specs.PlainView.{links_of, members_of};
ghost use Rattle.m_resolve.specs.Terms.{resolved_cell, resolved_table, resolved_term, resolved_terms, resolved_links};
ghost use Rattle.m_resolve.specs.Terms.{resolved_members, resolved_member, member_by, membership, any_of, if_resolved};
ghost use Rattle.m_resolve.specs.declared.fault.ResolveFault.TheVariants.{Memory};

use crate::ResolveFault;
use crate::names::{cell_of, table_of};
use m_ast::{PLink, PMember, PNode, PTerm, PlainName, is_plain_single};
use m_fixed::{Op, Value};
use m_places::{Name, Place};
use m_symbols::Symbols;
use micro_m::{MNode, MTerm, Step};
use std::alloc::{AllocError, Global};

// The name that errors have for `X`.
const X: &[u8] = b"X";

/// A term over cells, or its first error from left to right.
#[cycle(term)]
pub(crate) fn term(
    alloc: Global,
    term: &PTerm,
    symbols: &Symbols,
) -> Result<Box<MTerm>, ResolveFault>
    ensures { Says Memory result (λ tree. tree.value) (resolved_term symbols.now term.now) }
{
    match &term.node {
        PNode::Lit(value) => Ok(boxed(alloc, MNode::Lit(*value))?),
        PNode::Named(name, place) => named(alloc, name, *place, symbols),
        PNode::X(place) => Err(ResolveFault::UnknownName(Name::new(alloc, X)?, *place)),
        PNode::Cell(name, index, place) => table_read(alloc, name, index, *place, symbols),
        PNode::Apply(op, arguments) => applied(alloc, *op, arguments, symbols),
        PNode::Chain(first, links) => chained(alloc, first, links, symbols),
        PNode::Among(negated, x, members) => among(alloc, *negated, x, members, symbols),
    }
}

// A node in a box.
fn boxed(alloc: Global, node: MNode) -> Result<Box<MTerm>, AllocError>
    ensures { IfOk result (λ t. t.value ≡ tree_of node) }
{
    Ok(Box::new(alloc, MTerm::new(node))?)
}

// A name without an index.
fn named(
    alloc: Global,
    name: &PlainName,
    place: Place,
    symbols: &Symbols,
) -> Result<Box<MTerm>, ResolveFault>
    ensures { Says Memory result (λ tree. tree.value) (if_resolved (λ c. Ok (cell_tree c)) (resolved_cell symbols.now name.now place)) }
{
    let cell = cell_of(alloc, symbols, name, place)?;
    Ok(boxed(alloc, MNode::Cell(cell))?)
}

// A table read.
#[cycle(term)]
fn table_read(
    alloc: Global,
    name: &PlainName,
    index: &PTerm,
    place: Place,
    symbols: &Symbols,
) -> Result<Box<MTerm>, ResolveFault>
    ensures { Says Memory result (λ tree. tree.value)
        (if_resolved (λ table. if_resolved (λ i. Ok (pick table.0 table.1 i)) (resolved_term symbols.now index.now))
        (resolved_table symbols.now name.now place)) }
{
    let (first, size) = table_of(alloc, symbols, name, place)?;
    let index = term(alloc, index, symbols)?;
    Ok(boxed(alloc, MNode::Pick(first, size, index))?)
}

// An operator and its arguments.
#[cycle(term)]
fn applied(
    alloc: Global,
    op: Op,
    arguments: &[PTerm],
    symbols: &Symbols,
) -> Result<Box<MTerm>, ResolveFault>
    ensures { Says Memory result (λ tree. tree.value)
        (if_resolved (λ all. Ok (apply op (trees_of all))) (resolved_terms symbols.now [] (terms_of arguments.now))) }
{
    let arguments = terms(alloc, arguments, symbols)?;
    Ok(boxed(alloc, MNode::Apply(op, arguments))?)
}

// Terms in order.
#[cycle(term)]
fn terms(alloc: Global, all: &[PTerm], symbols: &Symbols) -> Result<Vec<MTerm>, ResolveFault>
    ensures { Says Memory result (λ trees. trees.items) (resolved_terms symbols.now [] (terms_of all.now)) }
{
    let mut trees = Vec::with_capacity(alloc, all.len())?;
    for one in all {
        let tree = term(alloc, one, symbols)?;
        trees.push(Box::into_inner(tree))?;
    }
    Ok(trees)
}

// A left fold.
#[cycle(term)]
fn chained(
    alloc: Global,
    first: &PTerm,
    links: &[PLink],
    symbols: &Symbols,
) -> Result<Box<MTerm>, ResolveFault>
    ensures { Says Memory result (λ tree. tree.value)
        (if_resolved (λ f. if_resolved (λ steps. Ok (chain f (steps_of steps))) (resolved_links symbols.now [] (links_of links.now)))
        (resolved_term symbols.now first.now)) }
{
    let first = term(alloc, first, symbols)?;
    let mut steps = Vec::with_capacity(alloc, links.len())?;
    for link in links {
        let tree = term(alloc, &link.term, symbols)?;
        steps.push(Step {
            op: link.op,
            term: Box::into_inner(tree),
        })?;
    }
    Ok(boxed(alloc, MNode::Chain(first, steps))?)
}

// A membership.
#[cycle(term)]
fn among(
    alloc: Global,
    negated: bool,
    x: &PTerm,
    members: &[PMember],
    symbols: &Symbols,
) -> Result<Box<MTerm>, ResolveFault>
    ensures { Says Memory result (λ tree. tree.value)
        (if_resolved (λ t. if_resolved (λ all. Ok (membership negated all)) (resolved_members symbols.now t [] (members_of members.now)))
        (resolved_term symbols.now x.now)) }
{
    let Some((first, others)) = members.split_first() else {
        let _tested = term(alloc, x, symbols)?;
        return Ok(joined(alloc, negated, Vec::new(alloc))?);
    };
    let all = member_steps(alloc, x, first, others, symbols)?;
    Ok(joined(alloc, negated, all)?)
}

// The members of a membership of x, each as a step with `ou`.
#[cycle(term)]
fn member_steps(
    alloc: Global,
    x: &PTerm,
    first: &PMember,
    others: &[PMember],
    symbols: &Symbols,
) -> Result<Vec<Step>, ResolveFault>
    ensures { Says Memory result (λ steps. steps.items)
        (if_resolved (λ t. resolved_members symbols.now t [] (members_of (first.now ∷ others.now))) (resolved_term symbols.now x.now)) }
{
    let mut steps = Vec::new(alloc);
    let earliest = member(alloc, x, first, symbols)?;
    steps.push(Step {
        op: Op::Or,
        term: earliest,
    })?;
    for one in others {
        let further = member(alloc, x, one, symbols)?;
        steps.push(Step {
            op: Op::Or,
            term: further,
        })?;
    }
    Ok(steps)
}

// A member of a membership of x. Each occurrence of x in it is a copy, made by resolving x again.
#[cycle(term)]
fn member(
    alloc: Global,
    x: &PTerm,
    member: &PMember,
    symbols: &Symbols,
) -> Result<MTerm, ResolveFault>
    ensures { Says Memory result (λ tree. tree) (if_resolved (λ t. resolved_member symbols.now t member.now.low member.now.high)
        (resolved_term symbols.now x.now)) }
{
    let first = term(alloc, x, symbols)?;
    let low = term(alloc, &member.low, symbols)?;
    let high = term(alloc, &member.high, symbols)?;
    if is_plain_single(alloc, &member.low, &member.high)? {
        return Ok(two(alloc, Op::Eq, first, low)?);
    }
    let second = term(alloc, x, symbols)?;
    Ok(between(alloc, first, second, low, high)?)
}

// An operator on two terms.
fn two(alloc: Global, op: Op, a: Box<MTerm>, b: Box<MTerm>) -> Result<MTerm, AllocError>
    ensures { IfOk result (λ t. t ≡ apply op (more a.value (more b.value none))) }
{
    let mut arguments = Vec::with_capacity(alloc, 2)?;
    arguments.push(Box::into_inner(a))?;
    arguments.push(Box::into_inner(b))?;
    Ok(MTerm::new(MNode::Apply(op, arguments)))
}

// `x >= low et x <= high`, where both of the first two are x.
fn between(
    alloc: Global,
    first: Box<MTerm>,
    second: Box<MTerm>,
    low: Box<MTerm>,
    high: Box<MTerm>,
) -> Result<MTerm, AllocError>
    requires { first.value ≡ second.value }
    ensures { IfOk result (λ t. t ≡ member_by false first.value low.value high.value) }
{
    let above = two(alloc, Op::Ge, first, low)?;
    let below = two(alloc, Op::Le, second, high)?;
    let mut steps = Vec::with_capacity(alloc, 1)?;
    steps.push(Step {
        op: Op::And,
        term: below,
    })?;
    Ok(MTerm::new(MNode::Chain(Box::new(alloc, above)?, steps)))
}

// The members joined, negated if `non` is present.
fn joined(alloc: Global, negated: bool, members: Vec<Step>) -> Result<Box<MTerm>, AllocError>
    ensures { IfOk result (λ t. t.value ≡ membership negated members.items) }
{
    let any = any_of(alloc, members)?;
    if !negated {
        return Ok(Box::new(alloc, any)?);
    }
    let mut arguments = Vec::with_capacity(alloc, 1)?;
    arguments.push(any)?;
    boxed(alloc, MNode::Apply(Op::Not, arguments))
}

// The members joined by `ou`.
fn any_of(alloc: Global, members: Vec<Step>) -> Result<MTerm, AllocError>
    ensures { IfOk result (λ t. t ≡ any_of members.items) }
{
    let mut members = members;
    if members.is_empty() {
        return Ok(MTerm::new(MNode::Lit(Value::Undef)));
    }
    let first = members.remove(0).term;
    if members.is_empty() {
        return Ok(first);
    }
    Ok(MTerm::new(MNode::Chain(Box::new(alloc, first)?, members)))
}
