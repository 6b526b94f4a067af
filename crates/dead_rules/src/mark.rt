//! Liveness: marks the nodes that an output or a check reads, directly or through other nodes.
ghost use Rattle.std.specs.Prelude.{◌≡◌, ℕ, ◌<◌, true, false, ◌⊎◌, length, IfOk};
ghost use Rattle.std.specs.List.{AllByRecursion};
ghost use Rattle.flat_code.specs.Runs.{IsCheck, IsFlat};
ghost use Rattle.flat_code.specs.Tidy.{Reads, ReadsCheck, IsReached};
ghost use Rattle.dead_rules.specs.inner.Steps.{ReadsBelow, is_live, Marks, IsLive, IsClosedFrom, IsAnOutput, IsOfACheck};

use flat_code::{Check, Flat, Node};
use std::alloc::{AllocError, Global};

// Marks three nodes.
fn mark_three(live: &mut [bool], a: u32, b: u32, c: u32)
    requires a { a < length live.old }
    requires b { b < length live.old }
    requires c { c < length live.old }
    ensures { Marks (λ x. (x ≡ a) ⊎ ((x ≡ b) ⊎ (x ≡ c))) live.old live.new }
{
    live[a as usize] = true;
    live[b as usize] = true;
    live[c as usize] = true;
}

// Marks the arguments of a node.
fn mark_arguments(live: &mut [bool], node: &Node)
    requires { ReadsBelow (length live.old) node.now }
    ensures { Marks (Reads node.now) live.old live.new }
{
    if let Node::Do(_, a, b, c) = *node {
        mark_three(live, a, b, c);
    }
}

// Marks the nodes of a check.
fn mark_check(live: &mut [bool], check: Check)
    requires { IsCheck (length live.old) check }
    ensures { Marks (ReadsCheck check) live.old live.new }
{
    live[check.guard as usize] = true;
    live[check.condition as usize] = true;
}

// Marks the nodes of outputs.
fn mark_outputs(live: &mut [bool], outputs: &[u32])
    requires { AllByRecursion (λ output. output < length live.old) outputs.now }
    ensures { Marks (IsAnOutput outputs.now (length outputs.now)) live.old live.new }
{
    for i in 0..outputs.len() {
        live[outputs[i] as usize] = true;
    }
}

// Marks the nodes of checks.
fn mark_checks(live: &mut [bool], checks: &[Check])
    requires { AllByRecursion (IsCheck (length live.old)) checks.now }
    ensures { Marks (IsOfACheck checks.now (length checks.now)) live.old live.new }
{
    for i in 0..checks.len() {
        mark_check(live, checks[i]);
    }
}

// Marks the arguments of marked nodes, from the last node to the first.
fn mark_back(live: &mut [bool], flat: &Flat)
    requires valid { IsFlat flat.now }
    requires size { length live.old ≡ length flat.now.nodes }
    requires reached { (x : ℕ) → is_live live.old x ≡ true → IsReached flat.now x }
    ensures { IsClosedFrom flat.now 0 live.old live.new }
{
    let nodes = flat.nodes.as_slice();
    let mut p = nodes.len();
    while p > 0 {
        p -= 1;
        if live[p] {
            mark_arguments(live, &nodes[p]);
        }
    }
}

// Marks the reached nodes. No node is marked before.
fn mark_all(live: &mut [bool], flat: &Flat)
    requires valid { IsFlat flat.now }
    requires size { length live.old ≡ length flat.now.nodes }
    requires none { (x : ℕ) → is_live live.old x ≡ false }
    ensures live { IsLive flat.now (is_live live.new) }
    ensures size { length live.new ≡ length live.old }
{
    mark_outputs(live, flat.outputs.as_slice());
    mark_checks(live, flat.checks.as_slice());
    mark_back(live, flat);
}

/// For each node whether it is reached.
pub fn marked(alloc: Global, flat: &Flat) -> Result<Vec<bool>, AllocError>
    requires { IsFlat flat.now }
    ensures live { IfOk result (λ live. IsLive flat.now (is_live live.items)) }
    ensures size { IfOk result (λ live. length live.items ≡ length flat.now.nodes) }
{
    let mut live = vec![in alloc; false; flat.nodes.as_slice().len()]?;
    mark_all(&mut live, flat);
    Ok(live)
}
