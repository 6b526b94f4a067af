//! Copies of parts of a driver.

ghost use Rattle.std.specs.Prelude.{◌≡◌, IfOk};
ghost use Rattle.micro_m.specs.Views.{tree_of};

use driver_core::{CLeaf, CTerm};
use m_places::{Name, Seq};
use micro_m::{MNode, MTerm, Step};
use std::alloc::{AllocError, Global};

/// A copy of a list of names.
pub fn copied_names(alloc: Global, names: &[Name]) -> Result<Seq<Name>, AllocError>
    ensures { IfOk result (λ copies. copies ≡ names.now) }
{
    let mut copies = Vec::with_capacity(alloc, names.len())?;
    for name in names {
        let copy = name.copy(alloc)?;
        copies.push(copy)?;
    }
    Ok(Seq::from_vec(copies))
}

/// A copy of a list of cells.
pub fn copied_cells(alloc: Global, cells: &[u32]) -> Result<Seq<u32>, AllocError>
    ensures { IfOk result (λ copies. copies ≡ cells.now) }
{
    let mut copies = Vec::with_capacity(alloc, cells.len())?;
    for cell in cells {
        copies.push(*cell)?;
    }
    Ok(Seq::from_vec(copies))
}

// A node in a box.
fn boxed(alloc: Global, node: MNode<CLeaf>) -> Result<Box<CTerm>, AllocError>
    ensures { IfOk result (λ t. t.value ≡ tree_of node) }
{
    Ok(Box::new(alloc, MTerm::new(node))?)
}

/// A copy of a term.
#[cycle(copied)]
pub fn copied(alloc: Global, term: &CTerm) -> Result<Box<CTerm>, AllocError>
    ensures { IfOk result (λ t. t.value ≡ term.now) }
{
    match &term.node {
        MNode::Lit(value) => boxed(alloc, MNode::Lit(*value)),
        MNode::Cell(CLeaf::Cell(cell)) => boxed(alloc, MNode::Cell(CLeaf::Cell(*cell))),
        MNode::Cell(CLeaf::Exists(kind)) => {
            let kind = kind.copy(alloc)?;
            boxed(alloc, MNode::Cell(CLeaf::Exists(kind)))
        }
        MNode::Pick(first, size, index) => {
            let index = copied(alloc, index)?;
            boxed(alloc, MNode::Pick(*first, *size, index))
        }
        MNode::Apply(op, arguments) => {
            boxed(alloc, MNode::Apply(*op, copied_terms(alloc, arguments)?))
        }
        MNode::Chain(first, steps) => {
            let first = copied(alloc, first)?;
            boxed(alloc, MNode::Chain(first, copied_steps(alloc, steps)?))
        }
    }
}

#[cycle(copied)]
fn copied_terms(alloc: Global, terms: &[CTerm]) -> Result<Vec<CTerm>, AllocError>
    ensures { IfOk result (λ copies. copies.items ≡ terms.now) }
{
    let mut copies = Vec::with_capacity(alloc, terms.len())?;
    for term in terms {
        let copy = copied(alloc, term)?;
        copies.push(Box::into_inner(copy))?;
    }
    Ok(copies)
}

#[cycle(copied)]
fn copied_steps(alloc: Global, steps: &[Step<CLeaf>]) -> Result<Vec<Step<CLeaf>>, AllocError>
    ensures { IfOk result (λ copies. copies.items ≡ steps.now) }
{
    let mut copies = Vec::with_capacity(alloc, steps.len())?;
    for step in steps {
        let term = copied(alloc, &step.term)?;
        copies.push(Step {
            op: step.op,
            term: Box::into_inner(term),
        })?;
    }
    Ok(copies)
}
