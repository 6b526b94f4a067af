//! Commands. No function here calls itself: nested blocks and bodies of functions are pushed on a
//! work list, and a loop processes its last item.
//!
//! Each step keeps `load + 6 * left_weight` from growing: the size of the program plus six times
//! the weight of the work list. The factor is six since an `if` adds up to five nodes, checks and
//! labels besides its condition. The loop ends since each step lowers `left_turns`.

ghost use Rattle.std.specs.Prelude.{◌≡◌, ℕ, ◌<◌, ◌≤◌, ◌-◌, ◌+◌, ◌*◌, ◌^◌, OnOk, IfOk, length};
ghost use Rattle.micro_m.specs.Bases.{IsValidBase};
ghost use Rattle.rule_order.specs.Orders.{IsOrder};
ghost use Rattle.rule_order.specs.declared.ordered.Ordered.{Ordered};
ghost use Rattle.driver_core.specs.Leaves.{rule_term};
ghost use Rattle.driver_core.specs.Actions.{branch, partition, call};
ghost use Rattle.driver_core.specs.ActionView.{block_of};
ghost use Rattle.driver_core.specs.Meaning.{called};
ghost use Rattle.driver_core.specs.Weights.{tree_weight, weight_of};
ghost use Rattle.mpp_inline.specs.Labelling.{Labelling, with_body};
ghost use Rattle.mpp_inline.specs.declared.builder.Builder.{Builder};
ghost use Rattle.mpp_inline.specs.inner.Growth.{Ready, calls, rules_in_turn};
ghost use Rattle.mpp_inline.specs.inner.Work.{Standing, Kept, Moves, Step, Whole, ahead, block_ahead, adds, done, point, does, whole_of, whole_by};
ghost use Rattle.mpp_inline.specs.inner.Sizes.{load, body_size, action_size, block_size, work_weight, left_weight};
ghost use Rattle.mpp_inline.specs.inner.Sizes.{body_turns, action_turns, block_turns, work_turns, left_turns};

use crate::branches::open_branches;
use crate::builder::{Builder, ONE, UNDEF};
use crate::cells::{blank, pick_cells, write};
use crate::rules::emit_rules;
use crate::terms::emit_tree;
use crate::work::{Choice, Driver, Frame, Work};
use crate::writes::assign_under;
use driver_core::{CCommand, CCommandNode, Core, KindCells};
use rule_order::Ordered;
use std::alloc::{AllocError, Global};

/// The body of a function; empty if the depth of calls is exhausted or the function doesn't exist.
fn body_at(core: &Core, depth: usize, function: u32) -> &[CCommand]
    ensures means { (ordered : Ordered) → does (whole_of core.now ordered) (depth - 1) result.now
        ≡ calls core.now ordered.base ordered.sequence depth function }
    ensures labelling { (ordered : Ordered) (l : Labelling) → adds (whole_of core.now ordered) (depth - 1) result.now l
        ≡ with_body ordered.base core.now.bodies depth function l }
    ensures weight { (ordered : Ordered) → block_size (whole_of core.now ordered) (depth - 1) (block_of result.now)
        ≡ body_size (whole_of core.now ordered) depth function }
    ensures turns { (ordered : Ordered) → block_turns (whole_of core.now ordered) (depth - 1) (block_of result.now)
        ≡ body_turns core.now.bodies depth function }
{
    if depth == 0 {
        return &[];
    }
    match core.bodies.as_slice().get(function as usize) {
        Some(found) => found.as_slice(),
        None => &[],
    }
}

/// Starts an `if`: emits its condition, and pushes its blocks, each under its own guard. Returns
/// the next guard.
fn begin_if<'a>(
    b: &mut Builder,
    env: &[u32],
    left: &mut Vec<Work<'a>>,
    frame: Frame,
    choice: &Choice<'a>,
) -> Result<u32, AllocError>
    requires { load b.old + 2 * tree_weight (rule_term choice.now.condition.now) + 4 < 2 ^ 32 }
    ensures step { IfOk result (λ g. (whole : Whole) → Standing whole b.old env.now frame.guard left.old.items
        → Moves whole b.old b.new env.now g left.old.items left.new.items
        (λ inputs. ahead whole b.old inputs env.now frame.guard frame.depth
        (branch choice.now.line (rule_term choice.now.condition.now) (block_of choice.now.first.now) (block_of choice.now.second.now)))) }
    ensures size { OnOk result ((whole : Whole) → load b.new + 6 * left_weight whole left.new.items
        ≤ load b.old + 2 * tree_weight (rule_term choice.now.condition.now) + 4 + 6 * (left_weight whole left.old.items
        + block_size whole frame.depth (block_of choice.now.first.now) + block_size whole frame.depth (block_of choice.now.second.now))) }
    ensures turns { OnOk result ((whole : Whole) → left_turns whole left.new.items ≡ left_turns whole left.old.items
        + block_turns whole frame.depth (block_of choice.now.first.now) + block_turns whole frame.depth (block_of choice.now.second.now) + 2) }
{
    let branches = open_branches(b, env, frame.guard, choice.line, choice.condition)?;
    left.push(Work::Under(frame.guard))?;
    left.push(Work::Run(frame.depth, choice.second))?;
    left.push(Work::Under(branches.second))?;
    left.push(Work::Run(frame.depth, choice.first))?;
    Ok(branches.first)
}

/// Starts a partition: makes these cells undefined, and pushes the block and the restoration of
/// their nodes.
fn begin_partition<'a>(
    alloc: Global,
    env: &mut [u32],
    left: &mut Vec<Work<'a>>,
    depth: usize,
    line: u32,
    cells: &[u32],
    block: &'a [CCommand],
) -> Result<(), AllocError>
    ensures step { OnOk result ((whole : Whole) (b : Builder) (guard : ℕ) → Standing whole b env.old guard left.old.items
        → Moves whole b b env.new guard left.old.items left.new.items
        (λ inputs. ahead whole b inputs env.old guard depth (partition line cells.now (block_of block.now)))) }
    ensures size { OnOk result ((whole : Whole) → left_weight whole left.new.items
        ≤ left_weight whole left.old.items + block_size whole depth (block_of block.now)) }
    ensures turns { OnOk result ((whole : Whole) → left_turns whole left.new.items ≡ left_turns whole left.old.items
        + block_turns whole depth (block_of block.now) + 1) }
{
    let before = pick_cells(alloc, env, cells)?;
    blank(env, cells);
    left.push(Work::Restore(before))?;
    left.push(Work::Run(depth, block))?;
    Ok(())
}

/// Starts a partition over the cells of a kind.
fn begin_kind<'a>(
    alloc: Global,
    env: &mut [u32],
    left: &mut Vec<Work<'a>>,
    depth: usize,
    line: u32,
    kind: &KindCells,
    block: &'a [CCommand],
) -> Result<(), AllocError>
    ensures step { OnOk result ((whole : Whole) (b : Builder) (guard : ℕ) → Standing whole b env.old guard left.old.items
        → Moves whole b b env.new guard left.old.items left.new.items
        (λ inputs. ahead whole b inputs env.old guard depth (partition line kind.now (block_of block.now)))) }
    ensures size { OnOk result ((whole : Whole) → left_weight whole left.new.items
        ≤ left_weight whole left.old.items + block_size whole depth (block_of block.now)) }
    ensures turns { OnOk result ((whole : Whole) → left_turns whole left.new.items ≡ left_turns whole left.old.items
        + block_turns whole depth (block_of block.now) + 1) }
{
    let cells = kind.cells(alloc)?;
    begin_partition(alloc, env, left, depth, line, &cells, block)
}

/// Starts a call: pushes the body of the function, which runs on a copy of the environment, and the
/// return of these cells.
fn begin_call<'a>(
    alloc: Global,
    env: &[u32],
    core: &'a Core,
    left: &mut Vec<Work<'a>>,
    depth: usize,
    cells: &'a [u32],
    function: u32,
) -> Result<(), AllocError>
    ensures step { OnOk result ((line names : ℕ) (ordered : Ordered) (b : Builder) (guard : ℕ)
        → Standing (whole_of core.now ordered) b env.now guard left.old.items
        → Moves (whole_of core.now ordered) b b env.now guard left.old.items left.new.items
        (λ inputs. ahead (whole_of core.now ordered) b inputs env.now guard depth (call line names cells.now function))) }
    ensures size { OnOk result ((ordered : Ordered) → left_weight (whole_of core.now ordered) left.new.items
        ≤ left_weight (whole_of core.now ordered) left.old.items + body_size (whole_of core.now ordered) depth function) }
    ensures turns { OnOk result ((ordered : Ordered) → left_turns (whole_of core.now ordered) left.new.items
        ≡ left_turns (whole_of core.now ordered) left.old.items + body_turns core.now.bodies depth function + 1) }
{
    let outer = env.to_vec(alloc)?;
    left.push(Work::Return(cells, outer))?;
    let body = body_at(core, depth, function);
    left.push(Work::Run(depth.saturating_sub(1), body))?;
    Ok(())
}

/// Emits a command, except for its blocks, which it pushes. Returns the next guard.
fn begin_command<'a>(
    alloc: Global,
    b: &mut Builder,
    env: &mut [u32],
    driver: &Driver<'a>,
    left: &mut Vec<Work<'a>>,
    frame: Frame,
    command: &'a CCommand,
) -> Result<u32, AllocError>
    requires valid { IsValidBase driver.now.ordered.now.base }
    requires order { IsOrder driver.now.ordered.now.base driver.now.ordered.now.sequence }
    requires room { load b.old + 6 * action_size (whole_by driver.now) frame.depth command.now < 2 ^ 32 }
    ensures step { IfOk result (λ g. Standing (whole_by driver.now) b.old env.old frame.guard left.old.items
        → Moves (whole_by driver.now) b.old b.new env.new g left.old.items left.new.items
        (λ inputs. ahead (whole_by driver.now) b.old inputs env.old frame.guard frame.depth command.now)) }
    ensures size { OnOk result (load b.new + 6 * left_weight (whole_by driver.now) left.new.items
        ≤ load b.old + 6 * (left_weight (whole_by driver.now) left.old.items
        + action_size (whole_by driver.now) frame.depth command.now)) }
    ensures turns { OnOk result (left_turns (whole_by driver.now) left.new.items
        ≤ left_turns (whole_by driver.now) left.old.items
        + action_turns (whole_by driver.now) frame.depth command.now) }
{
    match &command.node {
        CCommandNode::Set(_, cell, term) => {
            let number = emit_tree(b, env, term)?;
            assign_under(b, env, frame.guard, *cell, number)?;
            Ok(frame.guard)
        }
        CCommandNode::Del(_, cell) => {
            assign_under(b, env, frame.guard, *cell, UNDEF)?;
            Ok(frame.guard)
        }
        CCommandNode::If(line, condition, first, second) => {
            let choice = Choice {
                line: *line,
                condition,
                first,
                second,
            };
            begin_if(b, env, left, frame, &choice)
        }
        CCommandNode::Partition(line, cells, block) => {
            begin_kind(alloc, env, left, frame.depth, *line, cells, block)?;
            Ok(frame.guard)
        }
        CCommandNode::Call(_, _, cells, function) => {
            begin_call(
                alloc,
                env,
                driver.core,
                left,
                frame.depth,
                cells.as_slice(),
                *function,
            )?;
            Ok(frame.guard)
        }
        CCommandNode::Rules(_, _, cells) => {
            emit_rules(alloc, b, env, frame.guard, driver.ordered, cells.as_slice())?;
            Ok(frame.guard)
        }
    }
}

/// Emits the first command of a block and pushes the rest of the block. Returns the next guard.
fn begin_block<'a>(
    alloc: Global,
    b: &mut Builder,
    env: &mut [u32],
    driver: &Driver<'a>,
    left: &mut Vec<Work<'a>>,
    frame: Frame,
    block: &'a [CCommand],
) -> Result<u32, AllocError>
    requires valid { IsValidBase driver.now.ordered.now.base }
    requires order { IsOrder driver.now.ordered.now.base driver.now.ordered.now.sequence }
    requires room { load b.old + 6 * block_size (whole_by driver.now) frame.depth (block_of block.now) < 2 ^ 32 }
    ensures step { IfOk result (λ g. Standing (whole_by driver.now) b.old env.old frame.guard left.old.items
        → Moves (whole_by driver.now) b.old b.new env.new g left.old.items left.new.items
        (λ inputs. block_ahead (whole_by driver.now) b.old inputs env.old frame.guard frame.depth block.now)) }
    ensures size { OnOk result (load b.new + 6 * left_weight (whole_by driver.now) left.new.items
        ≤ load b.old + 6 * (left_weight (whole_by driver.now) left.old.items
        + block_size (whole_by driver.now) frame.depth (block_of block.now))) }
    ensures turns { OnOk result (left_turns (whole_by driver.now) left.new.items
        < left_turns (whole_by driver.now) left.old.items
        + block_turns (whole_by driver.now) frame.depth (block_of block.now)) }
{
    match block.split_first() {
        Some((first, rest)) => {
            left.push(Work::Run(frame.depth, rest))?;
            begin_command(alloc, b, env, driver, left, frame, first)
        }
        None => Ok(frame.guard),
    }
}

/// Processes an item of the work list. Returns the next guard.
fn advance<'a>(
    alloc: Global,
    b: &mut Builder,
    env: &mut Vec<u32>,
    guard: u32,
    driver: &Driver<'a>,
    left: &mut Vec<Work<'a>>,
    work: Work<'a>,
) -> Result<u32, AllocError>
    requires valid { IsValidBase driver.now.ordered.now.base }
    requires order { IsOrder driver.now.ordered.now.base driver.now.ordered.now.sequence }
    requires room { load b.old + 6 * work_weight (whole_by driver.now) work < 2 ^ 32 }
    ensures step { IfOk result (λ g. Standing (whole_by driver.now) b.old env.old.items guard left.old.items
        → Kept b.old work.entry
        → Moves (whole_by driver.now) b.old b.new env.new.items g left.old.items left.new.items
        (λ inputs. done (whole_by driver.now) b.old inputs work.entry (point b.old inputs env.old.items guard))) }
    ensures size { OnOk result (load b.new + 6 * left_weight (whole_by driver.now) left.new.items
        ≤ load b.old + 6 * (left_weight (whole_by driver.now) left.old.items
        + work_weight (whole_by driver.now) work.entry)) }
    ensures turns { OnOk result (left_turns (whole_by driver.now) left.new.items
        < left_turns (whole_by driver.now) left.old.items + work_turns (whole_by driver.now) work.entry) }
{
    match work {
        Work::Run(depth, block) => {
            let frame = Frame { depth, guard };
            let next = begin_block(alloc, b, env, driver, left, frame, block)?;
            Ok(next)
        }
        Work::Under(next) => Ok(next),
        Work::Restore(before) => {
            write(env, &before);
            Ok(guard)
        }
        Work::Return(cells, outer) => {
            let given = pick_cells(alloc, env, cells)?;
            *env = outer;
            write(env, &given);
            Ok(guard)
        }
    }
}

/// Emits the whole driver, from this environment.
pub fn emit_all(
    alloc: Global,
    b: &mut Builder,
    env: &mut Vec<u32>,
    core: &Core,
    ordered: &Ordered,
) -> Result<(), AllocError>
    requires valid { IsValidBase ordered.now.base }
    requires order { IsOrder ordered.now.base ordered.now.sequence }
    requires room { load b.old + 6 * weight_of core.now ordered.now.base < 2 ^ 32 }
    ensures size { OnOk result (load b.new ≤ load b.old + 6 * weight_of core.now ordered.now.base) }
    ensures step { OnOk result (Ready ordered.now.base.labels b.old env.old.items 2
        → Step b.old b.new 2 env.old.items env.new.items
        (called (rules_in_turn ordered.now.base ordered.now.sequence) core.now.bodies (length core.now.bodies + 1) core.now.main)
        (with_body ordered.now.base core.now.bodies (length core.now.bodies + 1) core.now.main)) }
{
    let driver = Driver { core, ordered };
    let mut left = Vec::new(alloc);
    let main = body_at(core, core.bodies.as_slice().len() + 1, core.main);
    left.push(Work::Run(core.bodies.as_slice().len(), main))?;
    let mut guard = ONE;
    while let Some(work) = left.pop() {
        guard = advance(alloc, b, env, guard, &driver, &mut left, work)?;
    }
    Ok(())
}
