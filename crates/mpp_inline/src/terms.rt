//! Terms of the rules and of the driver: each becomes a node.

ghost use Rattle.std.specs.Prelude.{◌<◌, ◌≤◌, ◌+◌, ◌*◌, ◌^◌, map, IfOk, OnOk, slice_index_or};
ghost use Rattle.m_fixed.specs.declared.amount.Value.TheVariants.{Undef};
ghost use Rattle.micro_m.specs.Leaves.{written, all_written, along_written};
ghost use Rattle.micro_m.specs.Trees.{pick};
ghost use Rattle.micro_m.specs.Views.{trees_of, steps_of};
ghost use Rattle.micro_m.specs.Values.{environment, term_value, argument_values, applied, folded};
ghost use Rattle.driver_core.specs.Weights.{tree_weight, trees_weight, steps_weight};
ghost use Rattle.mpp_inline.specs.inner.Growth.{IsUsable, Sane, Known, Gives, TermStep, at, denoted};
ghost use Rattle.mpp_inline.specs.inner.Sizes.{load};

use crate::builder::{Builder, UNDEF};
use crate::leaves::Emitted;
use crate::tables::{emit_picked, emit_table};
use flat_code::Node;
use m_fixed::Op;
use micro_m::{MNode, MTerm, Step, pick};
use std::alloc::AllocError;

/// The node with the value of a term.
#[cycle(terms)]
pub fn emit_tree<L: Emitted>(
    b: &mut Builder,
    env: &[u32],
    term: &MTerm<L>,
) -> Result<u32, AllocError>
    requires { load b.old + 2 * tree_weight (written L.leaf_tree term.now) ≤ 2 ^ 32 }
    ensures step { IfOk result (λ k. Sane b.old → Known b.old env.now
        → TermStep b.old b.new env.now (λ e. term_value e (written L.leaf_tree term.now)) k) }
    ensures size { OnOk result (load b.new < load b.old + 2 * tree_weight (written L.leaf_tree term.now)) }
{
    match &term.node {
        MNode::Lit(value) => b.push(Node::Lit(*value)),
        MNode::Cell(leaf) => leaf.emit(b, env),
        MNode::Pick(first, size, index) => emit_read(b, env, *first, *size, index),
        MNode::Apply(op, arguments) => emit_applied(b, env, *op, arguments),
        MNode::Chain(first, steps) => {
            let so_far = emit_tree(b, env, first)?;
            emit_steps(b, env, so_far, steps)
        }
    }
}

/// The node with the value of a term of the rules.
pub fn emit_term(b: &mut Builder, env: &[u32], term: &MTerm) -> Result<u32, AllocError>
    requires { load b.old + 2 * tree_weight term.now < 2 ^ 32 }
    ensures step { IfOk result (λ k. Sane b.old → Known b.old env.now
        → TermStep b.old b.new env.now (λ e. term_value e term.now) k) }
    ensures size { OnOk result (load b.new ≤ load b.old + 2 * tree_weight term.now) }
{
    emit_tree(b, env, term)
}

/// A table read at an index.
#[cycle(terms)]
fn emit_read<L: Emitted>(
    b: &mut Builder,
    env: &[u32],
    first: u32,
    size: u32,
    index: &MTerm<L>,
) -> Result<u32, AllocError>
    requires { load b.old + 2 * tree_weight (written L.leaf_tree (pick first size index.now)) ≤ 2 ^ 32 }
    ensures step { IfOk result (λ k. Sane b.old → Known b.old env.now
        → TermStep b.old b.new env.now (λ e. term_value e (written L.leaf_tree (pick first size index.now))) k) }
    ensures size { OnOk result (load b.new < load b.old + 2 * tree_weight (written L.leaf_tree (pick first size index.now))) }
{
    match index.literal() {
        Some(value) => emit_picked(b, env, pick(first, size, value)),
        None => {
            let place = emit_tree(b, env, index)?;
            emit_table(b, env, first, size, place)
        }
    }
}

/// An operator applied to its arguments. A missing argument is undefined.
#[cycle(terms)]
fn emit_applied<L: Emitted>(
    b: &mut Builder,
    env: &[u32],
    op: Op,
    arguments: &[MTerm<L>],
) -> Result<u32, AllocError>
    requires { load b.old + 2 * trees_weight (all_written L.leaf_tree (trees_of arguments.now)) + 1 < 2 ^ 32 }
    ensures step { IfOk result (λ k. Sane b.old → Known b.old env.now
        → TermStep b.old b.new env.now (λ e. applied op (argument_values e (all_written L.leaf_tree (trees_of arguments.now)))) k) }
    ensures size { OnOk result (load b.new ≤ load b.old + 2 * trees_weight (all_written L.leaf_tree (trees_of arguments.now)) + 1) }
{
    let first = emit_argument(b, env, arguments, 0)?;
    let second = emit_argument(b, env, arguments, 1)?;
    let third = emit_argument(b, env, arguments, 2)?;
    b.push(Node::Do(op, first, second, third))
}

/// The argument at a place, undefined if it is missing.
#[cycle(terms)]
fn emit_argument<L: Emitted>(
    b: &mut Builder,
    env: &[u32],
    arguments: &[MTerm<L>],
    place: usize,
) -> Result<u32, AllocError>
    requires { load b.old + 2 * slice_index_or (map (λ t. tree_weight (written L.leaf_tree t)) arguments.now) place 0 < 2 ^ 32 }
    ensures step { IfOk result (λ k. Sane b.old → Known b.old env.now
        → TermStep b.old b.new env.now (λ e. slice_index_or (argument_values e (all_written L.leaf_tree (trees_of arguments.now))) place Undef) k) }
    ensures size { OnOk result (load b.new ≤ load b.old + 2 * slice_index_or (map (λ t. tree_weight (written L.leaf_tree t)) arguments.now) place 0) }
{
    match arguments.get(place) {
        Some(argument) => emit_tree(b, env, argument),
        None => Ok(UNDEF),
    }
}

/// A left fold over the remaining terms, starting from this node.
#[cycle(terms)]
fn emit_steps<L: Emitted>(
    b: &mut Builder,
    env: &[u32],
    so_far: u32,
    steps: &[Step<L>],
) -> Result<u32, AllocError>
    requires { load b.old + 2 * steps_weight (along_written L.leaf_tree (steps_of steps.now)) < 2 ^ 32 }
    ensures size { OnOk result (load b.new ≤ load b.old + 2 * steps_weight (along_written L.leaf_tree (steps_of steps.now))) }
    ensures step { IfOk result (λ k. Sane b.old → Known b.old env.now → IsUsable b.old so_far
        → Gives b.old b.new
        (λ inputs. folded (environment (denoted b.old inputs env.now)) (at b.old inputs so_far)
        (along_written L.leaf_tree (steps_of steps.now))) k) }
{
    let mut number = so_far;
    for step in steps {
        let operand = emit_tree(b, env, &step.term)?;
        number = b.push(Node::Do(step.op, number, operand, UNDEF))?;
    }
    Ok(number)
}
