//! Brings terms into reverse Polish form.

ghost use Rattle.std.specs.Prelude.{◌≡◌, ◌++◌, ◌∷◌, [], OnOk};
ghost use Rattle.micro_m.specs.Views.{trees_of, steps_of};
ghost use Rattle.why_report.specs.inner.Parts.{argument_parts, literal_read, parts_of, step_parts};

use crate::part::{Part, literal, selected};
use micro_m::{MNode, MTerm, Step, pick};
use std::alloc::AllocError;

/// Appends the parts of a term.
#[cycle(flatten)]
pub(crate) fn append_term(term: &MTerm, parts: &mut Vec<Part>) -> Result<(), AllocError>
    ensures { OnOk result (parts.new.items ≡ parts.old.items ++ parts_of term.now) }
{
    match &term.node {
        MNode::Lit(value) => add(literal(*value), parts),
        MNode::Cell(cell) => add(Part::Read(*cell as usize), parts),
        MNode::Pick(first, size, index) => match literal_read(*first, *size, index) {
            Some(part) => add(part, parts),
            None => {
                append_term(index, parts)?;
                add(Part::ReadAt(*first, *size), parts)
            }
        },
        MNode::Apply(op, arguments) => {
            append_arguments(arguments, parts)?;
            add(Part::Do(*op, arguments.len()), parts)
        }
        MNode::Chain(first, steps) => {
            append_term(first, parts)?;
            append_steps(steps, parts)
        }
    }
}

#[cycle(flatten)]
fn append_arguments(arguments: &[MTerm], parts: &mut Vec<Part>) -> Result<(), AllocError>
    ensures { OnOk result (parts.new.items ≡ parts.old.items ++ argument_parts (trees_of arguments.now)) }
{
    for argument in arguments {
        append_term(argument, parts)?;
    }
    Ok(())
}

#[cycle(flatten)]
fn append_steps(steps: &[Step], parts: &mut Vec<Part>) -> Result<(), AllocError>
    ensures { OnOk result (parts.new.items ≡ parts.old.items ++ step_parts (steps_of steps.now)) }
{
    for step in steps {
        append_term(&step.term, parts)?;
        add(Part::Do(step.op, 2), parts)?;
    }
    Ok(())
}

// The part of a table read at a literal index.
fn literal_read(first: u32, size: u32, index: &MTerm) -> Option<Part>
    ensures { result ≡ literal_read first size index.now }
{
    match &index.node {
        MNode::Lit(value) => Some(selected(pick(first, size, *value))),
        MNode::Cell(_) => None,
        MNode::Pick(_, _, _) => None,
        MNode::Apply(_, _) => None,
        MNode::Chain(_, _) => None,
    }
}

fn add(part: Part, parts: &mut Vec<Part>) -> Result<(), AllocError>
    ensures { OnOk result (parts.new.items ≡ parts.old.items ++ part ∷ []) }
{
    parts.push(part)?;
    Ok(())
}
