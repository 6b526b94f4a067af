//! The program under construction.

ghost use Rattle.std.specs.Prelude.{◌<◌, ◌^◌, IfOk, OnOk};
ghost use Rattle.mpp_inline.specs.inner.Growth.{Pushed, CheckedRule, CheckedLine, NotedAt};
ghost use Rattle.mpp_inline.specs.inner.Sizes.{load};

use flat_code::{Check, Node};
use m_places::Seq;
use observables::{FaceLabel, InputType};
use std::alloc::{AllocError, Global};

/// The literal undefined, also the node of a cell that doesn't exist.
pub const UNDEF: u32 = 0;
/// The literal 0, the guard of a point that is never executed.
pub const ZERO: u32 = 1;
/// The literal 1, the guard of a point that is always executed.
pub const ONE: u32 = 2;

/// The program so far: the types of the inputs, the nodes, the checks, the labels, and for each
/// note its node and the number of its label.
#[derive(Drop)]
pub struct Builder {
    pub inputs: Seq<InputType>,
    pub nodes: Vec<Node>,
    pub checks: Vec<Check>,
    pub labels: Vec<FaceLabel>,
    pub notes: Vec<(u32, u32)>,
}

impl Builder {
    /// The allocator of the nodes.
    pub fn alloc(&self) -> Global {
        *self.nodes.allocator()
    }

    /// Appends a node, and returns its number.
    pub fn push(&mut self, node: Node) -> Result<u32, AllocError>
        requires { load self.old < 2 ^ 32 }
        ensures { IfOk result (λ k. Pushed self.old self.new node k) }
    {
        let number = self.nodes.len() as u32;
        self.nodes.extend_from_slice(&[node])?;
        Ok(number)
    }

    /// Appends a check of the rules, whose label exists.
    pub fn check_rule(
        &mut self,
        guard: u32,
        condition: u32,
        over_only: bool,
        label: u32,
    ) -> Result<(), AllocError>
        ensures { OnOk result (CheckedRule self.old self.new guard condition over_only label) }
    {
        self.checks.push(Check {
            guard,
            condition,
            over_only,
            label,
        })?;
        Ok(())
    }

    /// Appends a note, which reports the label with this number if the node is a number other than
    /// 0.
    pub fn note(&mut self, node: u32, label: u32) -> Result<(), AllocError>
        ensures { OnOk result (NotedAt self.old self.new node label) }
    {
        self.notes.push((node, label))?;
        Ok(())
    }

    /// Appends a check that stops only on `Over`, with a new label for the driver line.
    pub fn check_line(&mut self, guard: u32, condition: u32, line: u32) -> Result<(), AllocError>
        requires { load self.old < 2 ^ 32 }
        ensures { OnOk result (CheckedLine self.old self.new guard condition line) }
    {
        let label = self.labels.len() as u32;
        self.labels.push(FaceLabel::DriverLine(line))?;
        self.checks.push(Check {
            guard,
            condition,
            over_only: true,
            label,
        })?;
        Ok(())
    }
}
