//! The cells that a term reads, as runs of neighbouring cells.

ghost use Rattle.std.specs.Prelude.{◌≡◌, ◌∷◌, [], ◌++◌, OnOk, option_to_list};
ghost use Rattle.micro_m.specs.Views.{trees_of, steps_of};
ghost use Rattle.rule_order.specs.inner.Runs.{runs_in, runs_among, runs_along, picked_runs};

use micro_m::{MNode, MTerm, Picked, Step, pick};
use std::alloc::AllocError;

/// A run of neighbouring cells: one cell, or all cells of a table.
#[derive(Clone, Copy)]
pub struct Run {
    pub first: usize,
    pub count: usize,
}

/// Appends the runs that a term reads, in the order of the term. A table is one run, of any number
/// of cells.
#[cycle(reads)]
pub fn add_reads(term: &MTerm, runs: &mut Vec<Run>) -> Result<(), AllocError>
    ensures { OnOk result (runs.new.items ≡ runs.old.items ++ runs_in term.now) }
{
    match &term.node {
        MNode::Lit(_) => Ok(()),
        MNode::Cell(cell) => add_run(
            Run {
                first: *cell as usize,
                count: 1,
            },
            runs,
        ),
        MNode::Pick(first, size, index) => {
            add_reads(index, runs)?;
            add_table(*first, *size, index, runs)
        }
        MNode::Apply(_, arguments) => add_all(arguments, runs),
        MNode::Chain(first, steps) => {
            add_reads(first, runs)?;
            add_along(steps, runs)
        }
    }
}

#[cycle(reads)]
fn add_all(arguments: &[MTerm], runs: &mut Vec<Run>) -> Result<(), AllocError>
    ensures { OnOk result (runs.new.items ≡ runs.old.items ++ runs_among (trees_of arguments.now)) }
{
    for argument in arguments {
        add_reads(argument, runs)?;
    }
    Ok(())
}

#[cycle(reads)]
fn add_along(steps: &[Step], runs: &mut Vec<Run>) -> Result<(), AllocError>
    ensures { OnOk result (runs.new.items ≡ runs.old.items ++ runs_along (steps_of steps.now)) }
{
    for step in steps {
        add_reads(&step.term, runs)?;
    }
    Ok(())
}

/// Appends the run of a table that a table read reads.
fn add_table(first: u32, size: u32, index: &MTerm, runs: &mut Vec<Run>) -> Result<(), AllocError>
    ensures { OnOk result (runs.new.items ≡ runs.old.items ++ picked_runs first size index.now) }
{
    match table_run(first, size, index) {
        Some(run) => add_run(run, runs),
        None => Ok(()),
    }
}

/// The cells of the table that a table read reads: at a literal the selected cell, if there is one;
/// otherwise all cells.
fn table_run(first: u32, size: u32, index: &MTerm) -> Option<Run>
    ensures { option_to_list result ≡ picked_runs first size index.now }
{
    let all = Run {
        first: first as usize,
        count: size as usize,
    };
    match &index.node {
        MNode::Lit(value) => match pick(first, size, *value) {
            Picked::Cell(cell) => Some(Run {
                first: cell,
                count: 1,
            }),
            Picked::Fixed(_) => None,
        },
        MNode::Cell(_) => Some(all),
        MNode::Pick(_, _, _) => Some(all),
        MNode::Apply(_, _) => Some(all),
        MNode::Chain(_, _) => Some(all),
    }
}

fn add_run(run: Run, runs: &mut Vec<Run>) -> Result<(), AllocError>
    ensures { OnOk result (runs.new.items ≡ runs.old.items ++ run ∷ []) }
{
    runs.push(run)?;
    Ok(())
}
