//! The outputs of each node as linked lists.

ghost use Rattle.std.specs.Prelude.{◌≡◌, ℕ, suc, ◌<◌, ◌≤◌, ◌+◌, IfOk, All, length, slice_index};
ghost use Rattle.register_alloc.specs.inner.OutputChain.{IsChain, IsNext};

use std::alloc::{AllocError, Global};

/// Places in the list of outputs: for each node its first output, and for each output the next one
/// of the same node. The number of outputs marks the end.
#[derive(Drop)]
pub struct OutputChain {
    pub firsts: Vec<usize>,
    pub nexts: Vec<usize>,
}

/// Prepends an output to the list of its node.
fn link(firsts: &mut Vec<usize>, nexts: &mut Vec<usize>, outputs: &[u32], place: usize)
    requires chain { IsChain outputs.now (length firsts.old.items) (place + 1) firsts.old.items nexts.old.items }
    requires place { place < length outputs.now }
    requires node { slice_index outputs.now place < length firsts.old.items }
    ensures { IsChain outputs.now (length firsts.old.items) place firsts.new.items nexts.new.items }
{
    let node = outputs[place] as usize;
    nexts[place] = firsts[node];
    firsts[node] = place;
}

/// The lists of outputs of `nodes` nodes.
pub fn chain_of(alloc: Global, outputs: &[u32], nodes: usize) -> Result<OutputChain, AllocError>
    requires { All (λ x. x < nodes) outputs.now }
    ensures { IfOk result (λ chain. IsChain outputs.now nodes 0 chain.firsts.items chain.nexts.items) }
{
    let mut firsts = vec![in alloc; outputs.len(); nodes]?;
    let mut nexts = vec![in alloc; outputs.len(); outputs.len()]?;
    let mut left = outputs.len();
    while left > 0 {
        left -= 1;
        link(&mut firsts, &mut nexts, outputs, left);
    }
    Ok(OutputChain { firsts, nexts })
}
