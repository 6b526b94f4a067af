//! Whether all cells that a term reads are marked: whether the checked lines have them.

ghost use Rattle.std.specs.Prelude.{◌≡◌, ◌+◌, ◌<◌, ◌≤◌, length};
ghost use Rattle.micro_m.specs.Views.{trees_of, steps_of};
ghost use Rattle.micro_m.specs.Bases.{IsWithin, AreWithin, StepsAreWithin};
ghost use Rattle.why_report.specs.inner.Standing.{AllStand, KnowsStanding, run_is_marked, table_is_marked, term_is_marked, arguments_stand, steps_stand};

use micro_m::{MNode, MTerm, Picked, Step, pick};

/// Whether all cells that a term reads are marked. From each cell on, `known` of its cells are
/// known to be marked, so a table that is read often is scanned once.
#[cycle(standing)]
pub fn term_is_marked(term: &MTerm, marks: &[bool], known: &mut [usize]) -> bool
    requires within { IsWithin (length marks.now) term.now }
    requires size { length known.old ≡ length marks.now }
    requires knows { KnowsStanding marks.now known.old }
    ensures is_set { result ≡ term_is_marked marks.now term.now }
    ensures knows { KnowsStanding marks.now known.new }
{
    match &term.node {
        MNode::Lit(_) => true,
        MNode::Cell(cell) => marks[*cell as usize],
        MNode::Pick(first, size, index) => {
            term_is_marked(index, marks, known)
                && table_is_marked(*first, *size, index, marks, known)
        }
        MNode::Apply(_, arguments) => arguments_stand(arguments, marks, known),
        MNode::Chain(first, steps) => {
            term_is_marked(first, marks, known) && steps_stand(steps, marks, known)
        }
    }
}

#[cycle(standing)]
fn arguments_stand(arguments: &[MTerm], marks: &[bool], known: &mut [usize]) -> bool
    requires within { AreWithin (length marks.now) (trees_of arguments.now) }
    requires size { length known.old ≡ length marks.now }
    requires knows { KnowsStanding marks.now known.old }
    ensures is_set { result ≡ arguments_stand marks.now (trees_of arguments.now) }
    ensures knows { KnowsStanding marks.now known.new }
{
    for argument in arguments {
        if !term_is_marked(argument, marks, known) {
            return false;
        }
    }
    true
}

#[cycle(standing)]
fn steps_stand(steps: &[Step], marks: &[bool], known: &mut [usize]) -> bool
    requires within { StepsAreWithin (length marks.now) (steps_of steps.now) }
    requires size { length known.old ≡ length marks.now }
    requires knows { KnowsStanding marks.now known.old }
    ensures is_set { result ≡ steps_stand marks.now (steps_of steps.now) }
    ensures knows { KnowsStanding marks.now known.new }
{
    for step in steps {
        if !term_is_marked(&step.term, marks, known) {
            return false;
        }
    }
    true
}

/// Whether the cells that a table read reads are marked: at a literal index the selected cell, if
/// there is one, and else all cells of the table.
fn table_is_marked(
    first: u32,
    size: u32,
    index: &MTerm,
    marks: &[bool],
    known: &mut [usize],
) -> bool
    requires within { first + size ≤ length marks.now }
    requires size { length known.old ≡ length marks.now }
    requires knows { KnowsStanding marks.now known.old }
    ensures is_set { result ≡ table_is_marked marks.now first size index.now }
    ensures knows { KnowsStanding marks.now known.new }
{
    match &index.node {
        MNode::Lit(value) => match pick(first, size, *value) {
            Picked::Cell(cell) => marks[cell],
            Picked::Fixed(_) => true,
        },
        MNode::Cell(_) => run_is_marked(first as usize, size as usize, marks, known),
        MNode::Pick(_, _, _) => run_is_marked(first as usize, size as usize, marks, known),
        MNode::Apply(_, _) => run_is_marked(first as usize, size as usize, marks, known),
        MNode::Chain(_, _) => run_is_marked(first as usize, size as usize, marks, known),
    }
}

/// Whether `size` cells from `first` on are marked. Cells known to be marked are skipped.
fn run_is_marked(first: usize, size: usize, marks: &[bool], known: &mut [usize]) -> bool
    requires within { first + size ≤ length marks.now }
    requires size { length known.old ≡ length marks.now }
    requires knows { KnowsStanding marks.now known.old }
    ensures is_set { result ≡ run_is_marked marks.now first size }
    ensures knows { KnowsStanding marks.now known.new }
{
    if size == 0 {
        return true;
    }
    if !rest_is_marked(first, size, known[first], marks) {
        return false;
    }
    if size > known[first] {
        known[first] = size;
    }
    true
}

/// Whether `size` cells from `first` on are marked, of which `known` are known to be.
fn rest_is_marked(first: usize, size: usize, known: usize, marks: &[bool]) -> bool
    requires within { first + size ≤ length marks.now }
    requires knows { AllStand marks.now first known }
    ensures { result ≡ run_is_marked marks.now first size }
{
    for passed in known..size {
        if !marks[first + passed] {
            return false;
        }
    }
    true
}
