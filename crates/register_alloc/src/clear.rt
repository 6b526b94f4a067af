//! Frees slots whose nodes are dead.

ghost use Rattle.std.specs.Prelude.{◌≡◌, ℕ, ◌≤◌, length, OnOk};
ghost use Rattle.register_alloc.specs.Width.{reads, check_reads};
ghost use Rattle.register_alloc.specs.inner.Tables.{look};
ghost use Rattle.register_alloc.specs.inner.Sound.{live_at, Cleared};

use crate::moment::Moment;
use crate::slots::Slots;
use crate::task::Task;
use flat_code::{Check, Node};
use std::alloc::AllocError;

/// Frees the slots of a node's arguments that are dead at this moment.
pub fn clear_arguments(
    slots: &mut Slots,
    flat: &Task,
    at: Moment,
    node: Node,
) -> Result<(), AllocError>
    requires { at.made ≤ length flat.now.nodes }
    ensures cleared { OnOk result (Cleared (λ x. reads x node) (live_at flat.now at) (look slots.old) (look slots.new)) }
    ensures len { OnOk result (length slots.new ≡ length slots.old) }
{
    match node {
        Node::Input(_) | Node::Lit(_) => Ok(()),
        Node::Do(_, a, b, c) => {
            slots.clear_dead(a as usize, flat.is_live(at, a as usize))?;
            slots.clear_dead(b as usize, flat.is_live(at, b as usize))?;
            slots.clear_dead(c as usize, flat.is_live(at, c as usize))?;
            Ok(())
        }
    }
}

/// Frees the slots of a check's guard and condition if these are dead at this moment.
pub fn clear_tested(
    slots: &mut Slots,
    flat: &Task,
    at: Moment,
    check: Check,
) -> Result<(), AllocError>
    requires { at.made ≤ length flat.now.nodes }
    ensures cleared { OnOk result (Cleared (λ x. check_reads x check) (live_at flat.now at) (look slots.old) (look slots.new)) }
    ensures len { OnOk result (length slots.new ≡ length slots.old) }
{
    let guard = check.guard as usize;
    let condition = check.condition as usize;
    slots.clear_dead(guard, flat.is_live(at, guard))?;
    slots.clear_dead(condition, flat.is_live(at, condition))?;
    Ok(())
}
