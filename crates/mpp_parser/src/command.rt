//! The syntax trees of commands, functions and drivers.

ghost use Rattle.std.specs.Prelude.{◌≡◌};
ghost use Rattle.mpp_parser.specs.CommandView.{command_of};

use crate::term::{CellName, DTerm, Kind};
use m_places::{Name, Seq};
use std::marker::Model;

/// A command. Contracts see it as an `Act` of specs/, plain data.
#[cycle(command)]
#[derive(Drop)]
pub struct Command {
    pub node: CommandNode,
}

/// The forms of a command. The first field is the number of its line, from 1.
#[cycle(command)]
#[derive(Drop)]
pub enum CommandNode {
    /// Sets a cell to a term's value.
    Set(u32, CellName, DTerm),
    /// Makes a cell undefined.
    Del(u32, CellName),
    /// Runs the first block if the condition is a number other than 0, and the second, which may be
    /// empty, if it is 0 or undefined.
    If(u32, DTerm, Vec<Command>, Vec<Command>),
    /// Runs the block with the inputs of a kind undefined, and then restores their values.
    Partition(u32, Kind, Vec<Command>),
    /// Calls a function, or the rules, and receives these cells.
    Call(u32, Seq<CellName>, Name),
}

/// A function: its name, the number of its first line, and its commands.
#[derive(Drop)]
pub struct Function {
    pub name: Name,
    pub line: u32,
    pub body: Seq<Command>,
}

/// A driver: its functions in order.
#[derive(Drop)]
pub struct Driver {
    pub functions: Seq<Function>,
}

impl Model for Command {
    ghost use Rattle.mpp_parser.specs.Commands.{Act, act_nodes};
    ghost use Rattle.mpp_parser.specs.inner.CommandCoding.{coded_act};

    ghost Value = { Act };

    ghost coded = { coded_act };

    ghost use Rattle.mpp_parser.specs.CommandView.{command_of};

    ghost view = { λ c. command_of c.node };

    ghost size = { act_nodes };

    ghost use Rattle.mpp_parser.specs.inner.CommandFalls.{falls};

    ghost size_decreases = { λ a h. falls a.node };
}

/// The command of a node.
pub fn command_made(node: CommandNode) -> Command
    ensures { result ≡ command_of node }
{
    Command { node }
}
