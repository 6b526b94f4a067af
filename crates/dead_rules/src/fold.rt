//! Folds a program: its nodes are pushed into a builder.
ghost use Rattle.std.specs.Prelude.{◌≡◌, ◌≤◌, length, IfOk};
ghost use Rattle.flat_code.specs.Runs.{AreNodes, IsFlat};
ghost use Rattle.flat_code.specs.Passes.{Becomes};
ghost use Rattle.flat_code.specs.Tidy.{IsFolded};
ghost use Rattle.dead_rules.specs.inner.Steps.{IsCarried};

use crate::moved::{Ends, moved_ends, renamed};
use common_terms::{Key, NodesDigest};
use flat_code::{Flat, Node};
use fold_terms::Builder;
use std::alloc::{AllocError, Global};

// A builder, and the number there of each node pushed so far.
#[derive(Drop)]
struct Carry {
    builder: Builder,
    numbers: Vec<u32>,
}

// A hash key that is derived from all nodes.
fn key_of(nodes: &[Node]) -> Key {
    let mut digest = NodesDigest::new();
    for node in nodes {
        digest.take(*node);
    }
    digest.key()
}

// Pushes all nodes into a builder.
fn push_all(alloc: Global, inputs: u32, nodes: &[Node]) -> Result<Carry, AllocError>
    requires valid { AreNodes inputs 0 nodes.now }
    requires few { length nodes.now ≤ 4_294_967_295 }
    ensures inputs { IfOk result (λ c. c.builder.inputs ≡ inputs) }
    ensures carried { IfOk result (λ c. IsCarried nodes.now (length nodes.now) c.builder.nodes c.numbers.items) }
{
    let mut builder = Builder::under(alloc, inputs, key_of(nodes));
    let mut numbers = Vec::new(alloc);
    for i in 0..nodes.len() {
        let node = renamed(&numbers, nodes[i]);
        let number = builder.push(node)?;
        numbers.push(number)?;
    }
    Ok(Carry { builder, numbers })
}

/// The program with folded nodes.
pub fn folded(alloc: Global, flat: &Flat) -> Result<Flat, AllocError>
    requires valid { IsFlat flat.now }
    requires few { length flat.now.nodes ≤ 4_294_967_295 }
    ensures becomes { IfOk result (Becomes flat.now) }
    ensures folded { IfOk result (λ new. IsFolded new.nodes) }
{
    let Carry { builder, numbers } = push_all(alloc, flat.inputs, flat.nodes.as_slice())?;
    let Ends { checks, outputs } = moved_ends(alloc, &numbers, flat)?;
    Ok(builder.finish(checks, outputs))
}
