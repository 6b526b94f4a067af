//! The only place of this crate that computes a value. It counts each as a step.
ghost use Rattle.std.specs.Prelude.{◌≡◌, ◌+◌, length};
ghost use Rattle.flat_code.specs.Runs.{IsNode, entry_of, values_for};

use crate::steps::Steps;
use flat_code::{Node, value_of};
use m_fixed::Value;
use std::sync::ledger::Ledger;

/// The value of a node, given the values of the nodes before it. Takes one step and no memory.
pub(crate) fn evaluate<L: Ledger>(
    node: Node,
    values: &[Value],
    inputs: &[Value],
    steps: &mut Steps<L>,
) -> Value
    requires { IsNode (length inputs.now) (length values.now) node }
    ensures value { result ≡ entry_of (values_for inputs.now) values.now node }
    ensures step { steps.new ≡ steps.old + 1 }
{
    steps.tick();
    value_of(node, values, inputs)
}
