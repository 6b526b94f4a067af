//! The calls of functions as a base of rules; an order of it excludes recursion, and a cycle of it
//! is one of calls.

ghost use Rattle.std.specs.Prelude.{◌≡◌, ◌∷◌, [], ◌++◌, OnOk, IfOk, length};
ghost use Rattle.driver_core.specs.ActionView.{block_of};
ghost use Rattle.mpp_core.specs.inner.Calls.{action_steps, block_steps, call_step, calls_base, calls_from, calls_term};

use driver_core::{CCommand, CCommandNode};
use m_fixed::{Op, Value};
use m_places::{Place, Seq};
use micro_m::{Base, MNode, MTerm, Step};
use std::alloc::{AllocError, Global};

// The place of the definitions, which no error reports.
const NO_PLACE: Place = Place {
    file: 0,
    byte: 0,
    line: 0,
};

/// A base with a cell for each of the functions; a cell is defined by the sum of the functions that
/// its function calls.
pub(crate) fn calls_base(
    alloc: Global,
    bodies: &[Seq<CCommand>],
    functions: u32,
) -> Result<Base, AllocError>
    requires { functions ≡ length bodies.now }
    ensures { IfOk result (λ base. base ≡ calls_base bodies.now) }
{
    let mut definitions = Vec::with_capacity(alloc, functions as usize)?;
    add_definitions(alloc, bodies, functions, &mut definitions)?;
    Ok(Base {
        cells: functions,
        constants: Seq::from_vec(Vec::new(alloc)),
        definitions: Seq::from_vec(definitions),
        checks: Seq::from_vec(Vec::new(alloc)),
        labels: Seq::from_vec(Vec::new(alloc)),
    })
}

// Appends a definition for each function.
fn add_definitions(
    alloc: Global,
    bodies: &[Seq<CCommand>],
    functions: u32,
    definitions: &mut Vec<(u32, MTerm, Place)>,
) -> Result<(), AllocError>
    requires { functions ≡ length bodies.now }
    ensures { OnOk result (definitions.new.items ≡ definitions.old.items ++ calls_from 0 bodies.now) }
{
    for f in 0..functions {
        let calls = calls_term(alloc, bodies[f as usize].as_slice())?;
        definitions.push((f, calls, NO_PLACE))?;
    }
    Ok(())
}

// The sum of the functions that a block calls.
fn calls_term(alloc: Global, commands: &[CCommand]) -> Result<MTerm, AllocError>
    ensures { IfOk result (λ term. term ≡ calls_term (block_of commands.now)) }
{
    let mut steps = Vec::new(alloc);
    add_calls(commands, &mut steps)?;
    let first = Box::new(alloc, MTerm::new(MNode::Lit(Value::Undef)))?;
    Ok(MTerm::new(MNode::Chain(first, steps)))
}

// Appends a step for each call in a block.
#[cycle(calls)]
fn add_calls(commands: &[CCommand], steps: &mut Vec<Step>) -> Result<(), AllocError>
    ensures { OnOk result (steps.new.items ≡ steps.old.items ++ block_steps (block_of commands.now)) }
{
    for command in commands {
        add_action(command, steps)?;
    }
    Ok(())
}

#[cycle(calls)]
fn add_action(command: &CCommand, steps: &mut Vec<Step>) -> Result<(), AllocError>
    ensures { OnOk result (steps.new.items ≡ steps.old.items ++ action_steps command.now) }
{
    match &command.node {
        CCommandNode::Set(_, _, _) => Ok(()),
        CCommandNode::Del(_, _) => Ok(()),
        CCommandNode::If(_, _, first, second) => {
            add_calls(first, steps)?;
            add_calls(second, steps)
        }
        CCommandNode::Partition(_, _, block) => add_calls(block, steps),
        CCommandNode::Call(_, _, _, function) => add_call(*function, steps),
        CCommandNode::Rules(_, _, _) => Ok(()),
    }
}

fn add_call(function: u32, steps: &mut Vec<Step>) -> Result<(), AllocError>
    ensures { OnOk result (steps.new.items ≡ steps.old.items ++ call_step function ∷ []) }
{
    steps.push(Step {
        op: Op::Add,
        term: MTerm::new(MNode::Cell(function)),
    })?;
    Ok(())
}
