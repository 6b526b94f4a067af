//! The edges of each source as linked lists, from which the rows are built.
ghost use Rattle.std.specs.Prelude.{◌≡◌, ◌+◌, ◌<◌, ◌^◌, IfOk, OnOk, length, ◌++◌, slice_index};
ghost use Rattle.value_sheet.specs.Edges.{sourced};
ghost use Rattle.value_sheet.specs.inner.EdgeChain.{IsChain};

use std::alloc::{AllocError, Global};

/// For each source its first edge, and for each edge the next one with the same source; the number
/// of edges marks the end.
#[derive(Drop)]
pub(crate) struct EdgeChain {
    pub(crate) firsts: Vec<u32>,
    pub(crate) nexts: Vec<u32>,
}

// Prepends an edge to the list of its source.
fn link(firsts: &mut Vec<u32>, nexts: &mut Vec<u32>, sources: &[u32], edge: usize)
    requires few { length sources.now < 2 ^ 32 }
    requires chain { IsChain sources.now (length firsts.old.items) (edge + 1) firsts.old.items nexts.old.items }
    requires edge { edge < length sources.now }
    ensures { IsChain sources.now (length firsts.old.items) edge firsts.new.items nexts.new.items }
{
    let source = sources[edge] as usize;
    if source < firsts.len() {
        nexts[edge] = firsts[source];
        firsts[source] = edge as u32;
    }
}

/// The lists of edges with these sources. An edge whose source isn't below the count is in no list.
pub(crate) fn chain_of(
    alloc: Global,
    sources: &[u32],
    count: usize,
) -> Result<EdgeChain, AllocError>
    requires { length sources.now < 2 ^ 32 }
    ensures { IfOk result (λ chain. IsChain sources.now count 0 chain.firsts.items chain.nexts.items) }
{
    let mut firsts = vec![in alloc; sources.len() as u32; count]?;
    let mut nexts = vec![in alloc; sources.len() as u32; sources.len()]?;
    let mut left = sources.len();
    while left > 0 {
        left -= 1;
        link(&mut firsts, &mut nexts, sources, left);
    }
    Ok(EdgeChain { firsts, nexts })
}

/// Appends the targets of the edges of a source.
pub(crate) fn append_row(
    firsts: &[u32],
    nexts: &[u32],
    sources: &[u32],
    per: usize,
    source: usize,
    targets: &mut Vec<u32>,
) -> Result<(), AllocError>
    requires per { 0 < per }
    requires few { length sources.now < 2 ^ 32 }
    requires chain { IsChain sources.now (length firsts.now) 0 firsts.now nexts.now }
    requires source { source < length firsts.now }
    ensures { OnOk result (targets.new.items ≡ targets.old.items ++ sourced per source 0 sources.now) }
{
    let mut edge = firsts[source] as usize;
    while edge < sources.len() {
        targets.push((edge / per) as u32)?;
        edge = nexts[edge] as usize;
    }
    Ok(())
}
