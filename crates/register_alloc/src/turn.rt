//! The allocation of a whole program.

ghost use Rattle.std.specs.Prelude.{IfOk};
ghost use Rattle.register_alloc.specs.Allocation.{IsSmall, IsAllocation};
ghost use Rattle.register_alloc.specs.inner.Valid.{IsValid};

use crate::moment::Moment;
use crate::room::Room;
use crate::slots::Slots;
use crate::task::Task;
use flat_code::{Flat, Tidy};
use reg_machine::{Code, CodeBuilder, REGISTERS};
use std::alloc::{AllocError, Global};

/// Register code that denotes the program, with this number of labels and at most as many slots as
/// the program's width. The only error is running out of memory. For two inputs and an output that
/// is their sum it is `Take(0, 0)`, `Take(1, 1)`, `Do(Add, 0, 0, 1, 0)` and `Output(0, 0)`, without
/// slots.
pub fn allocate(alloc: Global, tidy: &Tidy, labels: u32) -> Result<Code, AllocError>
    requires { IsSmall tidy.now labels }
    ensures { IfOk result (IsAllocation tidy.now labels) }
{
    allocated(alloc, tidy.flat(), labels)
}

// The code of a valid program.
fn allocated(alloc: Global, flat: &Flat, labels: u32) -> Result<Code, AllocError>
    requires valid { IsValid flat.now }
    requires small { IsSmall flat.now labels }
    ensures { IfOk result (IsAllocation flat.now labels) }
{
    let task = Task::new(alloc, flat)?;
    let inputs = flat.inputs;
    let outputs = flat.outputs.as_slice().len() as u32;
    let mut room = Room {
        code: CodeBuilder::new(alloc, inputs, u32::MAX, labels, outputs),
        registers: [None; REGISTERS as usize],
        slots: Slots::new(alloc),
    };
    let mut at = Moment {
        made: 0,
        read: 0,
        checked: 0,
    };
    while at.made < flat.nodes.as_slice().len() {
        let next = room.turn(&task, at)?;
        at = room.settle(&task, next)?;
    }
    let Room { code, slots, .. } = room;
    Ok(code.seal(slots.count() as u32))
}
