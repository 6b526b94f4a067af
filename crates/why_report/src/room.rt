//! Buffers with which derivations are found without taking memory.

ghost use Rattle.std.specs.Prelude.{IfOk};
ghost use Rattle.why_report.specs.inner.Held.{IsRoomFor};

use crate::ReportLine;
use dirty_set::Bits;
use m_fixed::Value;
use std::alloc::{AllocError, Global};

/// Buffers for the cells of a base: a mark for each spot, for each cell how many cells from it on
/// are known to be marked, the needed cells at the end of a list, the values of the cells that have
/// lines, the stack on which a term is evaluated, and the lines.
#[derive(Drop)]
pub(crate) struct Room {
    pub(crate) marked: Bits,
    pub(crate) known: Vec<usize>,
    pub(crate) needed: Vec<u32>,
    pub(crate) values: Vec<Value>,
    pub(crate) stack: Vec<Value>,
    pub(crate) lines: Vec<ReportLine>,
}

/// Buffers for `cells` cells, and a stack of at most `height` values.
pub(crate) fn room_for(alloc: Global, cells: u32, height: usize) -> Result<Room, AllocError>
    ensures { IfOk result (IsRoomFor cells height) }
{
    let count = cells as usize;
    let none = ReportLine {
        cell: 0,
        value: Value::Undef,
    };
    Ok(Room {
        marked: Bits::new(alloc, cells)?,
        known: vec![in alloc; 0; count]?,
        needed: vec![in alloc; 0u32; count]?,
        values: vec![in alloc; Value::Undef; count]?,
        stack: vec![in alloc; Value::Undef; height]?,
        lines: vec![in alloc; none; count]?,
    })
}
