//! Writes under a guard: they take effect only if the guard is 1.

ghost use Rattle.std.specs.Prelude.{◌<◌, ◌≤◌, ◌+◌, ◌^◌, [], ◌∷◌, length, OnOk};
ghost use Rattle.mpp_inline.specs.inner.Growth.{IsUsable, Placed, Held, Merged, SameBut, cells_of};
ghost use Rattle.mpp_inline.specs.inner.Sizes.{load};

use crate::builder::{Builder, ONE};
use crate::cells::{look, put, write};
use flat_code::Node;
use m_fixed::Op;
use std::alloc::AllocError;

/// Writes the given nodes to their cells under a guard. Each write whose node differs is a choice.
pub fn merge(
    b: &mut Builder,
    env: &mut [u32],
    guard: u32,
    given: &[(u32, u32)],
) -> Result<(), AllocError>
    requires { load b.old + length given.now < 2 ^ 32 }
    ensures step { OnOk result (Placed b.old env.old guard → Held b.old given.now
        → Merged b.old b.new guard [] given.now env.old env.new) }
    ensures size { OnOk result (load b.new ≤ load b.old + length given.now) }
    ensures frame { OnOk result (SameBut (cells_of given.now) env.old env.new) }
{
    for (cell, first) in given {
        let second = look(env, *cell as usize);
        if *first != second {
            let number = b.push(Node::Do(Op::Choose, guard, *first, second))?;
            put(env, *cell, number);
        }
    }
    Ok(())
}

/// The same, but without choices if the guard is the literal 1.
pub fn write_under(
    b: &mut Builder,
    env: &mut [u32],
    guard: u32,
    given: &[(u32, u32)],
) -> Result<(), AllocError>
    requires { load b.old + length given.now < 2 ^ 32 }
    ensures step { OnOk result (Placed b.old env.old guard → Held b.old given.now
        → Merged b.old b.new guard [] given.now env.old env.new) }
    ensures size { OnOk result (load b.new ≤ load b.old + length given.now) }
    ensures frame { OnOk result (SameBut (cells_of given.now) env.old env.new) }
{
    if guard == ONE {
        write(env, given);
        return Ok(());
    }
    merge(b, env, guard, given)
}

/// Writes one node to its cell under a guard.
pub fn assign_under(
    b: &mut Builder,
    env: &mut [u32],
    guard: u32,
    cell: u32,
    number: u32,
) -> Result<(), AllocError>
    requires { load b.old + 1 < 2 ^ 32 }
    ensures step { OnOk result (Placed b.old env.old guard → IsUsable b.old number
        → Merged b.old b.new guard [] ((cell, number) ∷ []) env.old env.new) }
    ensures size { OnOk result (load b.new ≤ load b.old + 1) }
{
    write_under(b, env, guard, &[(cell, number)])
}
