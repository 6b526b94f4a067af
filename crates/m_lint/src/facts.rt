//! Facts about the nodes of a program, and its silent checks.

ghost use Rattle.std.specs.Prelude.{◌≡◌, IfOk, length, slice_index_or};
ghost use Rattle.definedness.specs.Facts.{fact_of_input};
ghost use Rattle.flat_code.specs.Facts.{facts_with};
ghost use Rattle.flat_code.specs.Runs.{AreNodes, IsNode, IsCheck, entries_of, entry_of};
ghost use Rattle.m_lint.specs.Findings.{is_quiet, is_silent, is_silent_by};

use definedness::{Fact, fact_of, fact_of_input, fact_of_value};
use flat_code::{Check, Node};
use std::alloc::{AllocError, Global};

/// The facts of all nodes, in order, of a program with `inputs` inputs, the first of which have the
/// given facts; any other may be undefined or any amount. Its only error is running out of memory.
pub fn facts_of(
    alloc: Global,
    nodes: &[Node],
    inputs: u32,
    given: &[Fact],
) -> Result<Vec<Fact>, AllocError>
    requires { AreNodes inputs 0 nodes.now }
    ensures facts { IfOk result (λ known. known.items ≡ entries_of (facts_with given.now) nodes.now) }
    ensures count { IfOk result (λ known. length known.items ≡ length nodes.now) }
{
    let mut known = Vec::with_capacity(alloc, nodes.len())?;
    for node in nodes {
        let fact = fact_of_node(*node, inputs, given, &known);
        known.push(fact)?;
    }
    Ok(known)
}

// The fact of a node, given those of the first inputs and of the nodes before it.
fn fact_of_node(node: Node, inputs: u32, given: &[Fact], known: &[Fact]) -> Fact
    requires { IsNode inputs (length known.now) node }
    ensures { result ≡ entry_of (facts_with given.now) known.now node }
{
    match node {
        Node::Input(n) => fact_of_given(n, given),
        Node::Lit(value) => fact_of_value(value),
        Node::Do(op, a, b, c) => fact_of(
            op,
            known[a as usize],
            known[b as usize],
            known[c as usize],
        ),
    }
}

// The fact of an input, given those of the first inputs.
fn fact_of_given(n: u32, given: &[Fact]) -> Fact
    ensures { result ≡ slice_index_or given.now n fact_of_input }
{
    if (n as usize) < given.len() {
        given[n as usize]
    } else {
        fact_of_input()
    }
}

/// Whether a check is silent: it can't stop a run.
pub(crate) fn is_silent(known: &[Fact], check: Check) -> bool
    requires { IsCheck (length known.now) check }
    ensures { result ≡ is_silent known.now check }
{
    let guard = known[check.guard as usize];
    let condition = known[check.condition as usize];
    is_silent_by(guard, condition, check.over_only)
}

fn is_silent_by(guard: Fact, condition: Fact, over_only: bool) -> bool
    ensures { result ≡ is_silent_by guard condition over_only }
{
    is_quiet(guard) || !condition.over && is_quiet(condition) || over_only && !condition.over
}

/// Whether no number other than 0 is possible.
pub(crate) fn is_quiet(fact: Fact) -> bool
    ensures { result ≡ is_quiet fact }
{
    !fact.may_be_other()
}
