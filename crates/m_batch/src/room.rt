//! The columns of a machine for blocks.
ghost use Rattle.std.specs.Prelude.{◌≡◌, length, IfOk};
ghost use Rattle.m_batch.specs.inner.Rooms.{AreWide, IsRoom};

use m_fixed::Value;
use observables::Stop;
use reg_machine::REGISTERS;
use std::alloc::{AllocError, Global};

/// The greatest number of rows in a block.
pub const BLOCK: usize = 64;

/// A column for each register, each slot that is used and each output, one more for results, and
/// the stop of each row. A column has one value for each row of a block.
#[derive(Drop)]
pub struct Room {
    pub registers: Vec<Vec<Value>>,
    pub slots: Vec<Vec<Value>>,
    pub outputs: Vec<Vec<Value>>,
    pub scratch: Vec<Value>,
    pub stops: Vec<Option<Stop>>,
}

impl Room {
    /// Columns for this many slots and outputs. Its only error is running out of memory.
    pub(crate) fn new(alloc: Global, slots: usize, outputs: usize) -> Result<Room, AllocError>
        ensures { IfOk result (IsRoom slots outputs) }
    {
        let registers = new_columns(alloc, REGISTERS as usize)?;
        let slots = new_columns(alloc, slots)?;
        let outputs = new_columns(alloc, outputs)?;
        let scratch = vec![in alloc; Value::Undef; BLOCK]?;
        let stops = vec![in alloc; None; BLOCK]?;
        Ok(Room {
            registers,
            slots,
            outputs,
            scratch,
            stops,
        })
    }
}

// This many columns.
fn new_columns(alloc: Global, many: usize) -> Result<Vec<Vec<Value>>, AllocError>
    ensures many { IfOk result (λ columns. length columns.items ≡ many) }
    ensures wide { IfOk result (λ columns. AreWide columns.items) }
{
    let mut columns = Vec::with_capacity(alloc, many)?;
    for _ in 0..many {
        columns.push(new_column(alloc)?)?;
    }
    Ok(columns)
}

fn new_column(alloc: Global) -> Result<Vec<Value>, AllocError>
    ensures { IfOk result (λ column. length column.items ≡ BLOCK) }
{
    vec![in alloc; Value::Undef; BLOCK]
}
