use m_fixed::{Op, Value};
use m_places::Seq;

/// A node of a flat program: an input, a literal, or an operator applied to earlier nodes.
/// Arguments past the operator's arity are ignored.
#[derive(Clone, Copy, Debug, PartialEq, Eq)]
pub enum Node {
    Input(u32),
    Lit(Value),
    Do(Op, u32, u32, u32),
}

/// A check stops the run if its guard is the number 1 and its condition is `Over` or, unless
/// `over_only`, a number other than 0. Guard and condition are node numbers; the label is a number
/// in the program's interface.
#[derive(Clone, Copy, Debug, PartialEq, Eq)]
pub struct Check {
    pub guard: u32,
    pub condition: u32,
    pub over_only: bool,
    pub label: u32,
}

/// A program without jumps: its nodes are computed in order, then its checks are evaluated in
/// order. If no check stops the run, the outputs are the values of their nodes.
#[derive(Drop)]
pub struct Flat {
    /// The number of inputs.
    pub inputs: u32,
    pub nodes: Seq<Node>,
    pub checks: Seq<Check>,
    /// The node of each output, in order.
    pub outputs: Seq<u32>,
}
