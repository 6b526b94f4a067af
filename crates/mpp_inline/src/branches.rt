//! Conditions of `if` commands.

ghost use Rattle.std.specs.Prelude.{◌<◌, ◌≤◌, ◌+◌, ◌*◌, ◌^◌, IfOk, OnOk};
ghost use Rattle.micro_m.specs.Values.{term_value};
ghost use Rattle.driver_core.specs.Leaves.{rule_term};
ghost use Rattle.driver_core.specs.Weights.{tree_weight};
ghost use Rattle.mpp_inline.specs.inner.Growth.{Placed, Opened};
ghost use Rattle.mpp_inline.specs.inner.Sizes.{load};

use crate::builder::{Builder, ZERO};
use crate::terms::emit_tree;
use driver_core::CTerm;
use flat_code::Node;
use m_fixed::Op;
use std::alloc::AllocError;

/// The truth of a condition, and the guards of the two blocks.
#[derive(Clone, Copy)]
pub struct Branches {
    pub truth: u32,
    pub first: u32,
    pub second: u32,
}

/// Emits a condition, with a check that stops the run if its value is `Over`, and the guards of the
/// two blocks.
pub fn open_branches(
    b: &mut Builder,
    env: &[u32],
    guard: u32,
    line: u32,
    condition: &CTerm,
) -> Result<Branches, AllocError>
    requires { load b.old + 2 * tree_weight (rule_term condition.now) + 4 < 2 ^ 32 }
    ensures step { IfOk result (λ r. Placed b.old env.now guard
        → Opened b.old b.new env.now guard line (λ e. term_value e (rule_term condition.now)) r) }
    ensures size { OnOk result (load b.new ≤ load b.old + 2 * tree_weight (rule_term condition.now) + 4) }
{
    let value = emit_tree(b, env, condition)?;
    b.check_line(guard, value, line)?;
    let truth = b.push(Node::Do(Op::Truth, value, value, value))?;
    let first = b.push(Node::Do(Op::Choose, truth, guard, ZERO))?;
    let second = b.push(Node::Do(Op::Choose, truth, ZERO, guard))?;
    Ok(Branches {
        truth,
        first,
        second,
    })
}
