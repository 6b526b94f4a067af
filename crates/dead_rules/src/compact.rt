//! Removes the nodes that aren't kept, and renumbers the others.
ghost use Rattle.std.specs.Prelude.{◌≡◌, ◌+◌, ◌<◌, ◌≤◌, length, take, slice_set, if◌then◌else◌, IfOk};
ghost use Rattle.flat_code.specs.Runs.{AreNodes};
ghost use Rattle.dead_rules.specs.inner.Steps.{is_live, Kept};

use crate::moved::renamed;
use flat_code::Node;
use std::alloc::{AllocError, Global};

/// The kept nodes, and for each old node the number of kept nodes before it, which is the new
/// number of a kept node.
#[derive(Drop)]
pub struct Compact {
    pub nodes: Vec<Node>,
    pub numbers: Vec<u32>,
}

// The number of kept nodes, and for each old node the number of kept nodes before it.
#[derive(Drop)]
struct Ranks {
    kept: usize,
    numbers: Vec<u32>,
}

// Writes a node after the kept ones if it is live, and returns the new number of kept nodes.
fn put(nodes: &mut [Node], kept: usize, node: Node, live: bool) -> usize
    requires { kept < length nodes.old }
    ensures nodes { nodes.new ≡ (if live then slice_set nodes.old kept node else nodes.old) }
    ensures kept { result ≡ (if live then kept + 1 else kept) }
{
    if !live {
        return kept;
    }
    nodes[kept] = node;
    kept + 1
}

// Moves the kept nodes to the start of the list, renumbered.
fn gathered(
    alloc: Global,
    inputs: u32,
    nodes: &mut [Node],
    live: &[bool],
) -> Result<Ranks, AllocError>
    requires valid { AreNodes inputs 0 nodes.old }
    requires few { length nodes.old ≤ 4_294_967_295 }
    requires size { length live.now ≡ length nodes.old }
    ensures kept { IfOk result (λ g. Kept nodes.old (is_live live.now) (length live.now) (take g.kept nodes.new) g.numbers.items) }
    ensures size { length nodes.new ≡ length nodes.old }
{
    let mut numbers = Vec::new(alloc);
    let mut kept = 0;
    for i in 0..live.len() {
        let node = renamed(&numbers, nodes[i]);
        numbers.push(kept as u32)?;
        let more = put(nodes, kept, node, live[i]);
        kept = more;
    }
    Ok(Ranks { kept, numbers })
}

/// The kept nodes, renumbered. They are moved within their vector; no second one is allocated.
pub fn compacted(
    alloc: Global,
    inputs: u32,
    nodes: Vec<Node>,
    live: &[bool],
) -> Result<Compact, AllocError>
    requires valid { AreNodes inputs 0 nodes.items }
    requires few { length nodes.items ≤ 4_294_967_295 }
    requires size { length live.now ≡ length nodes.items }
    ensures { IfOk result (λ c. Kept nodes.items (is_live live.now) (length nodes.items) c.nodes.items c.numbers.items) }
{
    let mut all = nodes;
    let done = gathered(alloc, inputs, &mut all, live)?;
    all.truncate(done.kept);
    Ok(Compact {
        nodes: all,
        numbers: done.numbers,
    })
}
