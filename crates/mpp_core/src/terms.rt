//! Resolves terms.

ghost use Rattle.std.specs.Prelude.{◌≡◌, Ok, Err, [], IfOk, map};
ghost use Rattle.m_places.specs.Refusals.{Says};
ghost use Rattle.m_symbols.specs.Placed.{IsPlaced};
ghost use Rattle.mpp_parser.specs.TermView.{terms_of, links_of};
ghost use Rattle.micro_m.specs.Trees.{cell as cell_tree, apply, chain};
ghost use Rattle.micro_m.specs.Views.{tree_of, trees_of, steps_of};
ghost use Rattle.driver_core.specs.Leaves.{rule_term};
ghost use Rattle.mpp_core.specs.Names.{if_resolved, resolved_cell};
ghost use Rattle.mpp_core.specs.Bodies.{resolved_term, resolved_terms, resolved_links};
ghost use Rattle.mpp_core.specs.declared.fault.CoreFault.TheVariants.{Memory};

use crate::CoreFault;
use crate::names::cell_of;
use crate::scope::Scope;
use driver_core::{CLeaf, CTerm};
use m_fixed::Op;
use micro_m::{MNode, MTerm, Step};
use mpp_parser::{CellName, DLink, DNode, DTerm};
use std::alloc::{AllocError, Global};

/// The term over cells, or the first of its errors from left to right. The line is that of its
/// command.
#[cycle(term)]
pub(crate) fn term(
    alloc: Global,
    term: &DTerm,
    line: u32,
    scope: &Scope<'_>,
) -> Result<Box<CTerm>, CoreFault>
    requires { IsPlaced scope.now }
    ensures { Says Memory result (λ t. rule_term t.value) (resolved_term scope.now line term.now) }
{
    match &term.node {
        DNode::Lit(value) => Ok(boxed(alloc, MNode::Lit(*value))?),
        DNode::Named(name) => named(alloc, name, line, scope),
        DNode::Apply(op, arguments) => applied(alloc, *op, arguments, line, scope),
        DNode::Chain(first, links) => chained(alloc, first, links, line, scope),
        DNode::Exists(kind) => {
            let cells = scope.kind_cells(alloc, kind)?;
            Ok(boxed(alloc, MNode::Cell(CLeaf::Exists(cells)))?)
        }
    }
}

// Boxes a node.
fn boxed(alloc: Global, node: MNode<CLeaf>) -> Result<Box<CTerm>, AllocError>
    ensures { IfOk result (λ t. rule_term t.value ≡ rule_term (tree_of node)) }
{
    Ok(Box::new(alloc, MTerm::new(node))?)
}

// A name.
fn named(
    alloc: Global,
    name: &CellName,
    line: u32,
    scope: &Scope<'_>,
) -> Result<Box<CTerm>, CoreFault>
    requires { IsPlaced scope.now }
    ensures { Says Memory result (λ t. rule_term t.value) (if_resolved (λ c. Ok (cell_tree c)) (resolved_cell scope.now line name.now)) }
{
    let cell = cell_of(alloc, scope.symbols(), line, name)?;
    Ok(boxed(alloc, MNode::Cell(CLeaf::Cell(cell)))?)
}

// An operator and its arguments.
#[cycle(term)]
fn applied(
    alloc: Global,
    op: Op,
    arguments: &[DTerm],
    line: u32,
    scope: &Scope<'_>,
) -> Result<Box<CTerm>, CoreFault>
    requires { IsPlaced scope.now }
    ensures { Says Memory result (λ t. rule_term t.value)
        (if_resolved (λ all. Ok (apply op (trees_of all))) (resolved_terms scope.now line [] (terms_of arguments.now))) }
{
    let arguments = terms(alloc, arguments, line, scope)?;
    Ok(boxed(alloc, MNode::Apply(op, arguments))?)
}

// Terms in sequence.
#[cycle(term)]
fn terms(
    alloc: Global,
    all: &[DTerm],
    line: u32,
    scope: &Scope<'_>,
) -> Result<Vec<CTerm>, CoreFault>
    requires { IsPlaced scope.now }
    ensures { Says Memory result (λ stated. map rule_term stated.items) (resolved_terms scope.now line [] (terms_of all.now)) }
{
    let mut stated = Vec::with_capacity(alloc, all.len())?;
    for one in all {
        let t = term(alloc, one, line, scope)?;
        stated.push(Box::into_inner(t))?;
    }
    Ok(stated)
}

// A left fold.
#[cycle(term)]
fn chained(
    alloc: Global,
    first: &DTerm,
    links: &[DLink],
    line: u32,
    scope: &Scope<'_>,
) -> Result<Box<CTerm>, CoreFault>
    requires { IsPlaced scope.now }
    ensures { Says Memory result (λ t. rule_term t.value)
        (if_resolved (λ f. if_resolved (λ steps. Ok (chain f (steps_of steps))) (resolved_links scope.now line [] (links_of links.now)))
        (resolved_term scope.now line first.now)) }
{
    let first = term(alloc, first, line, scope)?;
    let mut steps = Vec::with_capacity(alloc, links.len())?;
    for link in links {
        let t = term(alloc, &link.term, line, scope)?;
        steps.push(Step {
            op: link.op,
            term: Box::into_inner(t),
        })?;
    }
    Ok(boxed(alloc, MNode::Chain(first, steps))?)
}
