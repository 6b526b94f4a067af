//! Removes the calls of the rules from a driver. If the base has no rules, such a call changes
//! nothing.

ghost use Rattle.std.specs.Prelude.{◌≡◌, ◌↔◌, ◌++◌, [], IsTrue, IfOk, OnOk};
ghost use Rattle.driver_core.specs.Leaves.{rule_term};
ghost use Rattle.driver_core.specs.Actions.{branch};
ghost use Rattle.driver_core.specs.ActionView.{action_of, block_of};
ghost use Rattle.mpp_inline.specs.inner.Ruleless.{IsRuleless, left, left_behind, left_in, core_left};

use crate::copies::{copied, copied_cells, copied_names};
use driver_core::{CCommand, CCommandNode, CTerm, Core};
use m_places::Seq;
use micro_m::Base;
use std::alloc::{AllocError, Global};

/// Whether a base has no definitions and no checks.
pub fn is_ruleless(base: &Base) -> bool
    ensures { IsTrue result ↔ IsRuleless base.now }
{
    base.definitions.as_slice().is_empty() && base.checks.as_slice().is_empty()
}

/// The driver without its calls of the rules.
pub fn without_rules(alloc: Global, core: &Core) -> Result<Core, AllocError>
    ensures { IfOk result (λ made. made ≡ core_left core.now) }
{
    let names = copied_names(alloc, core.names.as_slice())?;
    let bodies = bodies_left(alloc, core.bodies.as_slice())?;
    Ok(Core {
        cells: core.cells,
        names,
        bodies,
        main: core.main,
    })
}

/// The bodies of functions without their calls of the rules.
fn bodies_left(alloc: Global, bodies: &[Seq<CCommand>]) -> Result<Seq<Seq<CCommand>>, AllocError>
    ensures { IfOk result (λ made. made ≡ left_in bodies.now) }
{
    let mut made = Vec::with_capacity(alloc, bodies.len())?;
    for body in bodies {
        let commands = block_left(alloc, body.as_slice())?;
        made.push(Seq::from_vec(commands))?;
    }
    Ok(Seq::from_vec(made))
}

/// The commands of a block without its calls of the rules.
#[cycle(ruleless)]
fn block_left(alloc: Global, block: &[CCommand]) -> Result<Vec<CCommand>, AllocError>
    ensures { IfOk result (λ made. made.items ≡ left_behind [] (block_of block.now)) }
{
    let mut made = Vec::new(alloc);
    for command in block {
        add_left(alloc, command, &mut made)?;
    }
    Ok(made)
}

/// Appends a command without the calls of the rules in it, unless it is such a call.
#[cycle(ruleless)]
fn add_left(alloc: Global, command: &CCommand, made: &mut Vec<CCommand>) -> Result<(), AllocError>
    ensures { OnOk result (made.new.items ≡ made.old.items ++ left command.now) }
{
    match &command.node {
        CCommandNode::Set(line, cell, term) => {
            let term = copied(alloc, term)?;
            made.push(CCommand::new(CCommandNode::Set(*line, *cell, Box::into_inner(term))))?;
            Ok(())
        }
        CCommandNode::Del(line, cell) => {
            made.push(CCommand::new(CCommandNode::Del(*line, *cell)))?;
            Ok(())
        }
        CCommandNode::If(line, condition, first, second) => {
            let command = branch_left(alloc, *line, condition, first, second)?;
            made.push(command)?;
            Ok(())
        }
        CCommandNode::Partition(line, cells, block) => {
            let cells = cells.copy(alloc)?;
            let block = block_left(alloc, block)?;
            made.push(CCommand::new(CCommandNode::Partition(*line, cells, block)))?;
            Ok(())
        }
        CCommandNode::Call(line, names, cells, function) => {
            let cells = copied_cells(alloc, cells.as_slice())?;
            made.push(CCommand::new(CCommandNode::Call(*line, *names, cells, *function)))?;
            Ok(())
        }
        CCommandNode::Rules(_, _, _) => Ok(()),
    }
}

/// An `if` whose blocks have no calls of the rules.
#[cycle(ruleless)]
fn branch_left(
    alloc: Global,
    line: u32,
    condition: &CTerm,
    first: &[CCommand],
    second: &[CCommand],
) -> Result<CCommand, AllocError>
    ensures { IfOk result (λ made. made ≡ branch line (rule_term condition.now)
        (block_of (left_behind [] (block_of first.now))) (block_of (left_behind [] (block_of second.now)))) }
{
    let condition = copied(alloc, condition)?;
    let first = block_left(alloc, first)?;
    let second = block_left(alloc, second)?;
    Ok(CCommand::new(CCommandNode::If(line, Box::into_inner(condition), first, second)))
}
