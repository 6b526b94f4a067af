//! The call graph. No contract relies on it: it only chooses the next function.

use crate::{CCommand, CCommandNode, Core};
use std::alloc::{AllocError, Global};

/// The calls of all functions, concatenated, and the position of each function's first call; a last
/// entry holds the end.
#[derive(Drop)]
pub struct Calls {
    pub functions: Vec<u32>,
    pub starts: Vec<usize>,
}

impl Calls {
    /// The calls of a driver, in the order of its functions.
    pub fn new(alloc: Global, core: &Core) -> Result<Calls, AllocError> {
        let mut functions = Vec::new(alloc);
        let mut starts = Vec::new(alloc);
        for body in core.bodies.as_slice() {
            starts.push(functions.len())?;
            add_calls(body.as_slice(), &mut functions)?;
        }
        starts.push(functions.len())?;
        Ok(Calls { functions, starts })
    }

    /// The position of a function's first call.
    pub fn start(&self, function: usize) -> usize {
        match self.starts.get(function) {
            Some(start) => *start,
            None => 0,
        }
    }

    /// The call at a position, if it is one of this function's.
    pub fn at(&self, function: usize, place: usize) -> Option<u32> {
        if place >= self.start(function.saturating_add(1)) {
            return None;
        }
        match self.functions.get(place) {
            Some(called) => Some(*called),
            None => None,
        }
    }
}

/// Appends the calls of a block, in order.
#[cycle(calls)]
fn add_calls(block: &[CCommand], calls: &mut Vec<u32>) -> Result<(), AllocError> {
    for command in block {
        add_call(command, calls)?;
    }
    Ok(())
}

#[cycle(calls)]
fn add_call(command: &CCommand, calls: &mut Vec<u32>) -> Result<(), AllocError> {
    match &command.node {
        CCommandNode::Set(_, _, _) => Ok(()),
        CCommandNode::Del(_, _) => Ok(()),
        CCommandNode::If(_, _, first, second) => {
            add_calls(first, calls)?;
            add_calls(second, calls)
        }
        CCommandNode::Partition(_, _, block) => add_calls(block, calls),
        CCommandNode::Call(_, _, _, function) => {
            calls.push(*function)?;
            Ok(())
        }
        CCommandNode::Rules(_, _, _) => Ok(()),
    }
}
