//! The work list.

use driver_core::{CCommand, CTerm, Core};
use rule_order::Ordered;

/// A driver, and the ordered rules that it calls.
#[derive(Drop)]
pub struct Driver<'a> {
    pub core: &'a Core,
    pub ordered: &'a Ordered,
}

/// The context of a command: the remaining depth of calls, and the guard under which it takes
/// effect.
#[derive(Clone, Copy)]
pub struct Frame {
    pub depth: usize,
    pub guard: u32,
}

/// An `if` on a line of the driver: its condition, and the blocks for true and false.
#[derive(Drop)]
pub struct Choice<'a> {
    pub line: u32,
    pub condition: &'a CTerm,
    pub first: &'a [CCommand],
    pub second: &'a [CCommand],
}

/// An item of the work list. The last item is processed first.
#[derive(Drop)]
pub enum Work<'a> {
    /// Run a block, with this remaining depth of calls.
    Run(usize, &'a [CCommand]),
    /// Switch to this guard.
    Under(u32),
    /// Restore the nodes of these cells.
    Restore(Vec<(u32, u32)>),
    /// Return from a function: copy these cells to the caller's environment, which becomes the
    /// current one.
    Return(&'a [u32], Vec<u32>),
}
