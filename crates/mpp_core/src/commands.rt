//! Resolves commands.

ghost use Rattle.std.specs.Prelude.{◌≡◌, ◌<◌, ◌^◌, Ok, Err, [], IfOk, length};
ghost use Rattle.m_places.specs.Refusals.{Says};
ghost use Rattle.m_symbols.specs.Placed.{IsPlaced};
ghost use Rattle.mpp_parser.specs.CommandView.{block_of as acts_of};
ghost use Rattle.driver_core.specs.Actions.{assign, clear, branch, partition};
ghost use Rattle.driver_core.specs.ActionView.{action_of, block_of};
ghost use Rattle.mpp_core.specs.Names.{if_resolved, resolved_target, resolved_each, kind_cells, resolved_function, rules_name};
ghost use Rattle.mpp_core.specs.Bodies.{resolved_term, resolved_act, resolved_acts, resolved_call};
ghost use Rattle.mpp_core.specs.declared.fault.CoreFault.TheVariants.{Memory};

use crate::CoreFault;
use crate::names::{each_once, target_of, targets_of, unknown};
use crate::scope::Scope;
use crate::terms::term;
use driver_core::{CCommand, CCommandNode};
use m_names::Names;
use m_places::Name;
use mpp_parser::{CellName, Command, CommandNode, DTerm, Kind};
use std::alloc::{AllocError, Global};

/// The command over cells and the functions with these names, or the first of its errors.
#[cycle(command)]
fn command(
    alloc: Global,
    command: &Command,
    names: &Names,
    scope: &Scope<'_>,
) -> Result<CCommand, CoreFault>
    requires { IsPlaced scope.now × (length names.now < 2 ^ 32) }
    ensures { Says Memory result (λ c. c) (resolved_act scope.now names.now command.now) }
{
    match &command.node {
        CommandNode::Set(line, cell, value) => assigned(alloc, *line, cell, value, scope),
        CommandNode::Del(line, cell) => cleared(alloc, *line, cell, scope),
        CommandNode::If(line, condition, first, second) => {
            branched(alloc, *line, condition, first, second, names, scope)
        }
        CommandNode::Partition(line, kind, block) => {
            partitioned(alloc, *line, kind, block, names, scope)
        }
        CommandNode::Call(line, cells, name) => {
            let received = targets_of(alloc, scope.symbols(), *line, cells.as_slice())?;
            called(alloc, *line, received, name, names)
        }
    }
}

// An assignment; the target is resolved before the term.
fn assigned(
    alloc: Global,
    line: u32,
    cell: &CellName,
    value: &DTerm,
    scope: &Scope<'_>,
) -> Result<CCommand, CoreFault>
    requires { IsPlaced scope.now }
    ensures { Says Memory result (λ c. c)
        (if_resolved (λ cell. if_resolved (λ t. Ok (assign line cell t)) (resolved_term scope.now line value.now)) (resolved_target scope.now line cell.now)) }
{
    let cell = target_of(alloc, scope.symbols(), line, cell)?;
    let value = term(alloc, value, line, scope)?;
    Ok(CCommand::new(CCommandNode::Set(line, cell, Box::into_inner(value))))
}

// A command that makes a cell undefined.
fn cleared(
    alloc: Global,
    line: u32,
    cell: &CellName,
    scope: &Scope<'_>,
) -> Result<CCommand, CoreFault>
    requires { IsPlaced scope.now }
    ensures { Says Memory result (λ c. c) (if_resolved (λ cell. Ok (clear line cell)) (resolved_target scope.now line cell.now)) }
{
    let cell = target_of(alloc, scope.symbols(), line, cell)?;
    Ok(CCommand::new(CCommandNode::Del(line, cell)))
}

// A condition with two blocks.
#[cycle(command)]
fn branched(
    alloc: Global,
    line: u32,
    condition: &DTerm,
    first: &[Command],
    second: &[Command],
    names: &Names,
    scope: &Scope<'_>,
) -> Result<CCommand, CoreFault>
    requires { IsPlaced scope.now × (length names.now < 2 ^ 32) }
    ensures { Says Memory result (λ c. c)
        (if_resolved (λ t. if_resolved (λ a. if_resolved (λ b. Ok (branch line t (block_of a) (block_of b)))
        (resolved_acts scope.now names.now [] (acts_of second.now)))
        (resolved_acts scope.now names.now [] (acts_of first.now))) (resolved_term scope.now line condition.now)) }
{
    let condition = term(alloc, condition, line, scope)?;
    let first = commands(alloc, first, names, scope)?;
    let second = commands(alloc, second, names, scope)?;
    Ok(CCommand::new(CCommandNode::If(line, Box::into_inner(condition), first, second)))
}

// A block with the inputs of a kind undefined.
#[cycle(command)]
fn partitioned(
    alloc: Global,
    line: u32,
    kind: &Kind,
    block: &[Command],
    names: &Names,
    scope: &Scope<'_>,
) -> Result<CCommand, CoreFault>
    requires { IsPlaced scope.now × (length names.now < 2 ^ 32) }
    ensures { Says Memory result (λ c. c)
        (if_resolved (λ a. Ok (partition line (kind_cells scope.now kind.now) (block_of a))) (resolved_acts scope.now names.now [] (acts_of block.now))) }
{
    let cells = scope.kind_cells(alloc, kind)?;
    let block = commands(alloc, block, names, scope)?;
    Ok(CCommand::new(CCommandNode::Partition(line, cells, block)))
}

// A call, of the rules or a function, that receives these cells.
fn called(
    alloc: Global,
    line: u32,
    received: Vec<u32>,
    name: &Name,
    names: &Names,
) -> Result<CCommand, CoreFault>
    requires { length names.now < 2 ^ 32 }
    ensures { Says Memory result (λ c. c) (resolved_call names.now line name.now received.items) }
{
    let count = received.len() as u64;
    let cells = each_once(received);
    if name.bytes() == b"call_m".as_slice() {
        return Ok(CCommand::new(CCommandNode::Rules(line, count, cells)));
    }
    match names.number(name.bytes()) {
        Some(function) => Ok(CCommand::new(CCommandNode::Call(line, count, cells, function))),
        None => Err(unknown(alloc, name, line)),
    }
}

/// Commands in sequence.
#[cycle(command)]
pub(crate) fn commands(
    alloc: Global,
    all: &[Command],
    names: &Names,
    scope: &Scope<'_>,
) -> Result<Vec<CCommand>, CoreFault>
    requires { IsPlaced scope.now × (length names.now < 2 ^ 32) }
    ensures { Says Memory result (λ stated. stated.items) (resolved_acts scope.now names.now [] (acts_of all.now)) }
{
    let mut stated = Vec::with_capacity(alloc, all.len())?;
    for one in all {
        let c = command(alloc, one, names, scope)?;
        stated.push(c)?;
    }
    Ok(stated)
}
