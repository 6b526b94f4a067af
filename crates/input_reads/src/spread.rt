//! The backward pass: from 64 requested nodes at a time, with one bit for each, to the inputs on
//! which they may depend.
ghost use Rattle.std.specs.Prelude.{◌≡◌, ℕ, ◌<◌, ◌≤◌, true, List, length, IfOk};
ghost use Rattle.std.specs.List.{AllByRecursion};
ghost use Rattle.flat_code.specs.declared.program.Node.TheVariants.{Input};
ghost use Rattle.flat_code.specs.Runs.{AreNodes, IsNode};
ghost use Rattle.input_reads.specs.Steps.{LooksAt, Gives, Takes};
ghost use Rattle.input_reads.specs.inner.Masks.{mask_at, Adds, IsMarked, IsSpread, AreMasks};

use crate::looks::{is_open, looks_at_second, looks_at_third};
use definedness::Fact;
use flat_code::Node;
use m_fixed::Op;
use std::alloc::{AllocError, Global};

// Adds a mask to the mask of number x, if `is_read`.
fn add_mask(is_read: bool, masks: &mut [u64], x: u32, mask: u64)
    requires { x < length masks.old }
    ensures { Adds (λ y. (is_read ≡ true) × (y ≡ x)) mask masks.old masks.new }
{
    if is_read {
        masks[x as usize] |= mask;
    }
}

// Adds a mask to the masks of the arguments that an operator uses.
fn add_to_arguments(masks: &mut [u64], known: &[Fact], op: Op, a: u32, b: u32, c: u32, mask: u64)
    requires node { IsNode 0 (length masks.old) (Node.Do op a b c) }
    requires known { length known.now ≡ length masks.old }
    ensures { Adds (LooksAt known.now (Node.Do op a b c)) mask masks.old masks.new }
{
    let first = known[a as usize];
    add_mask(true, masks, a, mask);
    add_mask(looks_at_second(op, first), masks, b, mask);
    add_mask(looks_at_third(op, first), masks, c, mask);
}

// Adds the mask of a node to the masks of the nodes that it uses, or to the mask of its input. More
// than one value is possible of the node.
fn add_node(masks: &mut [u64], found: &mut [u64], known: &[Fact], node: Node, mask: u64)
    requires node { IsNode (length found.old) (length masks.old) node }
    requires known { length known.now ≡ length masks.old }
    ensures masks { Adds (LooksAt known.now node) mask masks.old masks.new }
    ensures found { Adds (λ n. node ≡ Input n) mask found.old found.new }
{
    match node {
        Node::Input(n) => add_mask(true, found, n, mask),
        Node::Lit(_) => {}
        Node::Do(op, a, b, c) => add_to_arguments(masks, known, op, a, b, c, mask),
    }
}

// The same for the node with this number. Nothing is added if only one value is possible of it.
fn add_from(masks: &mut [u64], found: &mut [u64], known: &[Fact], nodes: &[Node], p: usize)
    requires within { p < length nodes.now }
    requires nodes { AreNodes (length found.old) 0 nodes.now }
    requires known { length known.now ≡ length nodes.now }
    requires masks { length masks.old ≡ length nodes.now }
    ensures masks { Adds (Takes known.now nodes.now p) (mask_at masks.old p) masks.old masks.new }
    ensures found { Adds (Gives known.now nodes.now p) (mask_at masks.old p) found.old found.new }
{
    let mask = masks[p];
    if mask != 0 && is_open(known[p]) {
        add_node(masks, found, known, nodes[p], mask);
    }
}

// Visits all nodes, from the last to the first.
fn spread_back(masks: &mut [u64], found: &mut [u64], known: &[Fact], nodes: &[Node])
    requires nodes { AreNodes (length found.old) 0 nodes.now }
    requires known { length known.now ≡ length nodes.now }
    requires masks { length masks.old ≡ length nodes.now }
    ensures size { length found.new ≡ length found.old }
    ensures spread { (wanted : List ℕ) → IsSpread known.now nodes.now wanted (length nodes.now) masks.old found.old
        → IsSpread known.now nodes.now wanted 0 masks.new found.new }
{
    let mut p = nodes.len();
    while p > 0 {
        p -= 1;
        add_from(masks, found, known, nodes, p);
    }
}

// Sets the bit of each of at most 64 requested nodes. No bit is 1 before.
fn mark_requested(masks: &mut [u64], wanted: &[u32])
    requires few { length wanted.now ≤ 64 }
    requires within { AllByRecursion (λ p. p < length masks.old) wanted.now }
    requires none { (x : ℕ) → mask_at masks.old x ≡ 0 }
    ensures size { length masks.new ≡ length masks.old }
    ensures marked { IsMarked wanted.now (length wanted.now) masks.new }
{
    for k in 0..wanted.len() {
        masks[wanted[k] as usize] |= 1u64 << k;
    }
}

// Computes for each input a mask whose bit k is 1 if the requested node k may depend on the input.
// No bit is 1 before.
fn fill(masks: &mut [u64], found: &mut [u64], known: &[Fact], nodes: &[Node], wanted: &[u32])
    requires nodes { AreNodes (length found.old) 0 nodes.now }
    requires known { length known.now ≡ length nodes.now }
    requires masks { length masks.old ≡ length nodes.now }
    requires few { length wanted.now ≤ 64 }
    requires within { AllByRecursion (λ p. p < length nodes.now) wanted.now }
    requires none { (x : ℕ) → mask_at masks.old x ≡ 0 }
    requires none_found { (n : ℕ) → mask_at found.old n ≡ 0 }
    ensures size { length found.new ≡ length found.old }
    ensures found { AreMasks known.now nodes.now wanted.now found.new }
{
    mark_requested(masks, wanted);
    spread_back(masks, found, known, nodes);
}

/// For each input a mask whose bit k is 1 if the requested node k may depend on the input. At most
/// 64 nodes are requested.
pub fn input_masks(
    alloc: Global,
    nodes: &[Node],
    inputs: u32,
    known: &[Fact],
    wanted: &[u32],
) -> Result<Vec<u64>, AllocError>
    requires nodes { AreNodes inputs 0 nodes.now }
    requires known { length known.now ≡ length nodes.now }
    requires few { length wanted.now ≤ 64 }
    requires within { AllByRecursion (λ p. p < length nodes.now) wanted.now }
    ensures size { IfOk result (λ found. length found.items ≡ inputs) }
    ensures found { IfOk result (λ found. AreMasks known.now nodes.now wanted.now found.items) }
{
    let mut masks = vec![in alloc; 0u64; nodes.len()]?;
    let mut found = vec![in alloc; 0u64; inputs as usize]?;
    fill(&mut masks, &mut found, known, nodes, wanted);
    Ok(found)
}
