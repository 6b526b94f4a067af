//! Marks the cells that rules read.

ghost use Rattle.std.specs.Prelude.{◌≡◌, ◌<◌, ℕ, false, IfOk, length, map, max, replicate, slice_index_or};
ghost use Rattle.micro_m.specs.Bases.{IsValidBase, terms_of};
ghost use Rattle.micro_m.specs.Views.{trees_of, steps_of};
ghost use Rattle.m_lint.specs.Readings.{conditions_of, is_read};
ghost use Rattle.m_lint.specs.inner.Marks.{raised, reach_of_pick, reach_of_picked, reach_of, reach_of_all, reach_along, reach_of_terms, swept};

use m_places::Place;
use micro_m::{Base, MNode, MTerm, Picked, Step, pick};
use std::alloc::{AllocError, Global};

/// For each cell whether a definition or a check's condition reads it. A table read at a computed
/// index takes one step, whatever the table's size.
pub(crate) fn read_marks(alloc: Global, base: &Base) -> Result<Vec<bool>, AllocError>
    requires { IsValidBase base.now }
    ensures count { IfOk result (λ marks. length marks.items ≡ base.now.cells) }
    ensures marks { IfOk result (λ marks. (c : ℕ) → c < base.now.cells → slice_index_or marks.items c false ≡ is_read base.now c) }
{
    let reach = reach_of_base(alloc, base)?;
    sweep(alloc, &reach)
}

// For each cell the length of the longest run of cells that is read from it on.
fn reach_of_base(alloc: Global, base: &Base) -> Result<Vec<u32>, AllocError>
    ensures { IfOk result (λ reach. reach.items ≡ reach_of_terms (conditions_of base.now) (reach_of_terms (terms_of base.now) (replicate base.now.cells 0))) }
{
    let mut reach = vec![in alloc; 0; base.cells as usize]?;
    read_definitions(base.definitions.as_slice(), &mut reach);
    read_conditions(base.checks.as_slice(), &mut reach);
    Ok(reach)
}

fn read_definitions(definitions: &[(u32, MTerm, Place)], reach: &mut [u32])
    ensures { reach.new ≡ reach_of_terms (map (λ d. d.1) definitions.now) reach.old }
{
    for definition in definitions {
        read_term(&definition.1, reach);
    }
}

fn read_conditions(checks: &[(MTerm, u32, Place)], reach: &mut [u32])
    ensures { reach.new ≡ reach_of_terms (map (λ check. check.0) checks.now) reach.old }
{
    for check in checks {
        read_term(&check.0, reach);
    }
}

// Adds the runs that a term reads.
#[cycle(reads)]
fn read_term(term: &MTerm, reach: &mut [u32])
    ensures { reach.new ≡ reach_of term.now reach.old }
{
    match &term.node {
        MNode::Lit(_) => {}
        MNode::Cell(cell) => raise(reach, *cell as usize, 1),
        MNode::Pick(first, size, index) => {
            read_term(index, reach);
            read_pick(*first, *size, index, reach);
        }
        MNode::Apply(_, arguments) => read_all(arguments, reach),
        MNode::Chain(first, steps) => {
            read_term(first, reach);
            read_along(steps, reach);
        }
    }
}

#[cycle(reads)]
fn read_all(arguments: &[MTerm], reach: &mut [u32])
    ensures { reach.new ≡ reach_of_all (trees_of arguments.now) reach.old }
{
    for argument in arguments {
        read_term(argument, reach);
    }
}

#[cycle(reads)]
fn read_along(steps: &[Step], reach: &mut [u32])
    ensures { reach.new ≡ reach_along (steps_of steps.now) reach.old }
{
    for step in steps {
        read_term(&step.term, reach);
    }
}

// Adds the runs that a table read reads: at a literal index the selected cell, if there is one, and
// else all cells of the table.
fn read_pick(first: u32, size: u32, index: &MTerm, reach: &mut [u32])
    ensures { reach.new ≡ reach_of_pick first size index.now reach.old }
{
    match &index.node {
        MNode::Lit(value) => read_picked(pick(first, size, *value), reach),
        MNode::Cell(_) => raise(reach, first as usize, size),
        MNode::Pick(_, _, _) => raise(reach, first as usize, size),
        MNode::Apply(_, _) => raise(reach, first as usize, size),
        MNode::Chain(_, _) => raise(reach, first as usize, size),
    }
}

fn read_picked(picked: Picked, reach: &mut [u32])
    ensures { reach.new ≡ reach_of_picked picked reach.old }
{
    match picked {
        Picked::Cell(cell) => raise(reach, cell, 1),
        Picked::Fixed(_) => {}
    }
}

// Makes the longest run from a cell on at least `count` long.
fn raise(reach: &mut [u32], first: usize, count: u32)
    ensures { reach.new ≡ raised reach.old first count }
{
    if first < reach.len() && reach[first] < count {
        reach[first] = count;
    }
}

// For each cell whether a run contains it.
fn sweep(alloc: Global, reach: &[u32]) -> Result<Vec<bool>, AllocError>
    ensures { IfOk result (λ marks. marks.items ≡ swept 0 0 reach.now) }
{
    let mut marks = Vec::with_capacity(alloc, reach.len())?;
    let mut until = 0;
    for (cell, count) in reach.iter().enumerate() {
        until = later(until, cell + *count as usize);
        marks.push(cell < until)?;
    }
    Ok(marks)
}

fn later(a: usize, b: usize) -> usize
    ensures { result ≡ max a b }
{
    if a < b { b } else { a }
}
