//! The weight of commands, given the weights of the functions.

ghost use Rattle.std.specs.Prelude.{◌≡◌, true, slice_index_or};
ghost use Rattle.driver_core.specs.ActionView.{block_of};
ghost use Rattle.driver_core.specs.Weights.{action_weight, block_weight, names_changed, names_changed_in};
ghost use Rattle.driver_core.specs.inner.Capped.{capped};
ghost use Rattle.driver_core.specs.inner.WeightTable.{IsDone, CallsOnly, ActionCallsOnly};

use crate::weigh_base::weigh_tree;
use crate::{CCommand, CCommandNode};

/// The weight of a block, given the weight and the cells of the base, and the weights of the
/// functions.
#[cycle(weigh)]
pub fn weigh_block(block: &[CCommand], rules: u64, cells: u64, table: &[u64]) -> u64
    ensures { result ≡ capped (block_weight rules cells (λ f. slice_index_or table.now f 0) (block_of block.now)) }
{
    let mut total: u64 = 0;
    for command in block {
        total = total.saturating_add(weigh_command(command, rules, cells, table));
    }
    total
}

#[cycle(weigh)]
fn weigh_command(command: &CCommand, rules: u64, cells: u64, table: &[u64]) -> u64
    ensures { result ≡ capped (action_weight rules cells (λ f. slice_index_or table.now f 0) command.now) }
{
    match &command.node {
        CCommandNode::Set(_, _, term) => weigh_tree(term),
        CCommandNode::Del(_, _) => 1,
        CCommandNode::If(_, condition, first, second) => weigh_tree(condition)
            .saturating_add(weigh_block(first, rules, cells, table))
            .saturating_add(weigh_block(second, rules, cells, table))
            .saturating_add(names_in(first))
            .saturating_add(names_in(second)),
        CCommandNode::Partition(_, _, block) => {
            weigh_block(block, rules, cells, table).saturating_add(cells)
        }
        CCommandNode::Call(_, _, _, function) => entry(table, *function).saturating_add(cells),
        CCommandNode::Rules(_, _, _) => rules,
    }
}

/// The weight of a function, 0 if there is none with this number.
pub fn entry(table: &[u64], function: u32) -> u64
    ensures { result ≡ slice_index_or table.now function 0 }
{
    match table.get(function as usize) {
        Some(weight) => *weight,
        None => 0,
    }
}

/// The count of names that the commands of a block set, delete or receive.
#[cycle(names)]
fn names_in(block: &[CCommand]) -> u64
    ensures { result ≡ capped (names_changed_in (block_of block.now)) }
{
    let mut total: u64 = 0;
    for command in block {
        total = total.saturating_add(names_of(command));
    }
    total
}

#[cycle(names)]
fn names_of(command: &CCommand) -> u64
    ensures { result ≡ capped (names_changed command.now) }
{
    match &command.node {
        CCommandNode::Set(_, _, _) => 1,
        CCommandNode::Del(_, _) => 1,
        CCommandNode::If(_, _, first, second) => names_in(first).saturating_add(names_in(second)),
        CCommandNode::Partition(_, _, block) => names_in(block),
        CCommandNode::Call(_, names, _, _) => *names,
        CCommandNode::Rules(_, names, _) => *names,
    }
}

/// Whether the weights of all functions that a block calls are known.
#[cycle(done)]
pub fn calls_are_done(block: &[CCommand], done: &[bool]) -> bool
    ensures { result ≡ true → CallsOnly (IsDone done.now) (block_of block.now) }
{
    for command in block {
        if !command_is_done(command, done) {
            return false;
        }
    }
    true
}

#[cycle(done)]
fn command_is_done(command: &CCommand, done: &[bool]) -> bool
    ensures { result ≡ true → ActionCallsOnly (IsDone done.now) command.now }
{
    match &command.node {
        CCommandNode::Set(_, _, _) => true,
        CCommandNode::Del(_, _) => true,
        CCommandNode::If(_, _, first, second) => {
            calls_are_done(first, done) && calls_are_done(second, done)
        }
        CCommandNode::Partition(_, _, block) => calls_are_done(block, done),
        CCommandNode::Call(_, _, _, function) => is_done(done, *function),
        CCommandNode::Rules(_, _, _) => true,
    }
}

/// Whether the weight of a function is known.
pub fn is_done(done: &[bool], function: u32) -> bool
    ensures { result ≡ true → IsDone done.now function }
{
    match done.get(function as usize) {
        Some(done) => *done,
        None => false,
    }
}
