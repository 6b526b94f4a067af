//! Runs of flat programs.
ghost use Rattle.std.specs.Prelude.{◌≡◌, ◌<◌, length, map, IfOk, None, if◌then◌else◌};
ghost use Rattle.std.specs.List.{AllByRecursion};
ghost use Rattle.m_fixed.specs.declared.amount.Value.{Value};
ghost use Rattle.flat_code.specs.Runs.{IsFlat, IsNode, AreNodes, IsCheck, entry_of, values_for, node_values, value_at, is_one, stop_of, first_stop, flat_run};

use crate::{Check, Flat, Node};
use m_fixed::{Amount, Value, apply};
use m_places::Seq;
use observables::{Answer, Stop};
use std::alloc::{AllocError, Global};

/// The answer of a program for these inputs, one value for each of its inputs. Takes one step for
/// each node, check and output. The only error is running out of memory.
///
/// For the nodes `Input(0)`, `Lit(2 units)` and `Do(Op::Mul, 0, 1, 0)`, with the last as output, an
/// undefined input gives an undefined output.
pub fn run_flat(alloc: Global, flat: &Flat, inputs: &[Value]) -> Result<Answer, AllocError>
    requires valid { IsFlat flat.now }
    requires inputs { length inputs.now ≡ flat.now.inputs }
    ensures { IfOk result (λ answer. answer ≡ flat_run flat.now inputs.now) }
{
    let values = values_of(alloc, flat.nodes.as_slice(), inputs)?;
    match stop_among(flat.checks.as_slice(), &values) {
        Some(stop) => Ok(Answer::Stopped(stop)),
        None => {
            let outputs = outputs_of(alloc, flat.outputs.as_slice(), &values)?;
            Ok(Answer::Values(Seq::from_vec(outputs)))
        }
    }
}

/// The values of all nodes, in a vector of exactly their number. The only error is running out of
/// memory.
pub fn values_of(alloc: Global, nodes: &[Node], inputs: &[Value]) -> Result<Vec<Value>, AllocError>
    requires { AreNodes (length inputs.now) 0 nodes.now }
    ensures { IfOk result (λ values. values.items ≡ node_values inputs.now nodes.now) }
{
    let mut values = Vec::with_capacity(alloc, nodes.len())?;
    for node in nodes {
        let value = value_of(*node, &values, inputs);
        values.push(value)?;
    }
    Ok(values)
}

/// The value of a node, given the values of the nodes before it. Takes no memory.
pub fn value_of(node: Node, values: &[Value], inputs: &[Value]) -> Value
    requires { IsNode (length inputs.now) (length values.now) node }
    ensures { result ≡ entry_of (values_for inputs.now) values.now node }
{
    match node {
        Node::Input(n) => inputs[n as usize],
        Node::Lit(value) => value,
        Node::Do(op, a, b, c) => apply(
            op,
            values[a as usize],
            values[b as usize],
            values[c as usize],
        ),
    }
}

/// The stop of the first check that causes one, given the values of the nodes. Takes no memory.
pub fn stop_among(checks: &[Check], values: &[Value]) -> Option<Stop>
    requires { AllByRecursion (IsCheck (length values.now)) checks.now }
    ensures { result ≡ first_stop values.now checks.now }
{
    for check in checks {
        let guard = values[check.guard as usize];
        let condition = values[check.condition as usize];
        if let Some(stop) = stop_at(guard, check.over_only, check.label, condition) {
            return Some(stop);
        }
    }
    None
}

/// The stop of a check, given the values of its guard and condition. Takes no memory.
pub fn stop_at(guard: Value, over_only: bool, label: u32, condition: Value) -> Option<Stop>
    ensures { result ≡ (if is_one guard then stop_of over_only label condition else None) }
{
    if is_one(guard) {
        stop_of(over_only, label, condition)
    } else {
        None
    }
}

/// Whether a value is the number 1.
pub fn is_one(value: Value) -> bool
    ensures { result ≡ is_one value }
{
    match value {
        Value::Num(amount) => amount.millionths() == 1_000_000,
        Value::Undef | Value::Over => false,
    }
}

fn stop_of(over_only: bool, label: u32, value: Value) -> Option<Stop>
    ensures { result ≡ stop_of over_only label value }
{
    match value {
        Value::Undef => None,
        Value::Num(amount) => failure_of(over_only, label, amount),
        Value::Over => Some(Stop::Over(label)),
    }
}

fn failure_of(over_only: bool, label: u32, amount: Amount) -> Option<Stop>
    ensures { result ≡ stop_of over_only label (Value.Num amount) }
{
    if over_only || amount.millionths() == 0 {
        None
    } else {
        Some(Stop::Failed(label))
    }
}

// The values of the outputs.
fn outputs_of(alloc: Global, outputs: &[u32], values: &[Value]) -> Result<Vec<Value>, AllocError>
    requires { AllByRecursion (λ output. output < length values.now) outputs.now }
    ensures { IfOk result (λ given. given.items ≡ map (value_at values.now) outputs.now) }
{
    let mut given = Vec::new(alloc);
    for output in outputs {
        given.push(values[*output as usize])?;
    }
    Ok(given)
}
