//! Commands of drivers over cells.

ghost use Rattle.std.specs.Prelude.{◌≡◌};
ghost use Rattle.driver_core.specs.ActionView.{action_of};

use crate::CTerm;
use crate::kind_cells::KindCells;
use m_places::Seq;
use std::marker::Model;

/// A command. Contracts see it as an `Action` of specs/, plain data.
#[cycle(command)]
#[derive(Drop)]
pub struct CCommand {
    pub node: CCommandNode,
}

/// The forms of a command. The first field is the number of its line, from 1.
#[cycle(command)]
#[derive(Drop)]
pub enum CCommandNode {
    /// Assigns the value of a term to a cell.
    Set(u32, u32, CTerm),
    /// Makes a cell undefined.
    Del(u32, u32),
    /// Runs the first block if the condition is a number other than 0, and the second, which may be
    /// empty, if it is 0 or undefined.
    If(u32, CTerm, Vec<CCommand>, Vec<CCommand>),
    /// Runs the block with these cells undefined, and then restores their values.
    Partition(u32, KindCells, Vec<CCommand>),
    /// Runs the body of the function with this number on a copy of the environment, of which these
    /// cells are received. The second field counts the names left of `<-`.
    Call(u32, u64, Seq<u32>, u32),
    /// Computes and checks the rules, of whose values these cells are received. The second field
    /// counts the names left of `<-`.
    Rules(u32, u64, Seq<u32>),
}

impl Model for CCommand {
    ghost use Rattle.driver_core.specs.Actions.{Action, action_nodes};
    ghost use Rattle.driver_core.specs.inner.ActionCoding.{coded_action};

    ghost Value = { Action };

    ghost coded = { coded_action };

    ghost use Rattle.driver_core.specs.ActionView.{action_of};

    ghost view = { λ c. action_of c.node };

    ghost size = { action_nodes };

    ghost use Rattle.driver_core.specs.inner.ActionFalls.{falls};

    ghost size_decreases = { λ a h. falls a.node };
}

impl CCommand {
    /// The command with this node.
    pub fn new(node: CCommandNode) -> CCommand
        ensures { result ≡ action_of node }
    {
        CCommand { node }
    }
}
