//! Renumbers nodes, checks and outputs.
ghost use Rattle.std.specs.Prelude.{◌≡◌, ◌<◌, length, map, IfOk};
ghost use Rattle.std.specs.List.{AllByRecursion};
ghost use Rattle.flat_code.specs.Runs.{IsCheck};
ghost use Rattle.flat_code.specs.inner.Renumber.{renamed, moved};
ghost use Rattle.dead_rules.specs.inner.Steps.{ReadsBelow, look};

use flat_code::{Check, Flat, Node};
use std::alloc::{AllocError, Global};

/// The node with renumbered arguments.
pub fn renamed(numbers: &[u32], node: Node) -> Node
    requires { ReadsBelow (length numbers.now) node }
    ensures { result ≡ renamed (look numbers.now) node }
{
    match node {
        Node::Input(n) => Node::Input(n),
        Node::Lit(value) => Node::Lit(value),
        Node::Do(op, a, b, c) => Node::Do(
            op,
            numbers[a as usize],
            numbers[b as usize],
            numbers[c as usize],
        ),
    }
}

// The check with renumbered guard and condition.
fn moved(numbers: &[u32], check: Check) -> Check
    requires { IsCheck (length numbers.now) check }
    ensures { result ≡ moved (look numbers.now) check }
{
    Check {
        guard: numbers[check.guard as usize],
        condition: numbers[check.condition as usize],
        over_only: check.over_only,
        label: check.label,
    }
}

/// The checks with renumbered guards and conditions.
pub fn moved_checks(
    alloc: Global,
    numbers: &[u32],
    checks: &[Check],
) -> Result<Vec<Check>, AllocError>
    requires { AllByRecursion (IsCheck (length numbers.now)) checks.now }
    ensures { IfOk result (λ new. new.items ≡ map (moved (look numbers.now)) checks.now) }
{
    let mut new = Vec::new(alloc);
    for check in checks {
        new.push(moved(numbers, *check))?;
    }
    Ok(new)
}

/// The renumbered outputs.
pub fn moved_outputs(
    alloc: Global,
    numbers: &[u32],
    outputs: &[u32],
) -> Result<Vec<u32>, AllocError>
    requires { AllByRecursion (λ output. output < length numbers.now) outputs.now }
    ensures { IfOk result (λ new. new.items ≡ map (look numbers.now) outputs.now) }
{
    let mut new = Vec::new(alloc);
    for output in outputs {
        new.push(numbers[*output as usize])?;
    }
    Ok(new)
}

/// The checks and the outputs of a program.
#[derive(Drop)]
pub struct Ends {
    pub checks: Vec<Check>,
    pub outputs: Vec<u32>,
}

/// The renumbered checks and outputs of a program.
pub fn moved_ends(alloc: Global, numbers: &[u32], flat: &Flat) -> Result<Ends, AllocError>
    requires checks { AllByRecursion (IsCheck (length numbers.now)) flat.now.checks }
    requires outputs { AllByRecursion (λ output. output < length numbers.now) flat.now.outputs }
    ensures checks { IfOk result (λ ends. ends.checks.items ≡ map (moved (look numbers.now)) flat.now.checks) }
    ensures outputs { IfOk result (λ ends. ends.outputs.items ≡ map (look numbers.now) flat.now.outputs) }
{
    let checks = moved_checks(alloc, numbers, flat.checks.as_slice())?;
    let outputs = moved_outputs(alloc, numbers, flat.outputs.as_slice())?;
    Ok(Ends { checks, outputs })
}
