//! Rows of numbers, stored in one vector.
ghost use Rattle.std.specs.Prelude.{◌≡◌, ◌+◌, ◌<◌, ◌≤◌, ◌^◌, [], IfOk, length, slice_index, slice_index_or};
ghost use Rattle.value_sheet.specs.Edges.{rows_of};
ghost use Rattle.value_sheet.specs.inner.Table.{row_in};

use crate::chain::{append_row, chain_of};
use std::alloc::{AllocError, Global};
use std::marker::Model;

/// Rows of numbers. Contracts see them as a list of lists.
#[derive(Drop)]
pub struct Rows {
    // the offset of each row, and the end of the last one
    offsets: Vec<u32>,
    targets: Vec<u32>,
}

impl Model for Rows {
    ghost use Rattle.std.specs.Prelude.{ℕ, List};
    ghost use Rattle.value_sheet.specs.inner.Table.{rows_in, IsTable};

    ghost Value = { List (List ℕ) };

    ghost view = { λ r. rows_in r.offsets.items r.targets.items };

    ghost invariant = { λ r. IsTable r.offsets.items r.targets.items };
}

impl Rows {
    /// For each source below the count the row of the targets of its edges: edge e leads from
    /// `sources[e]` to `e / per`. Edges from other sources are in no row. The only error is running
    /// out of memory.
    pub fn of_sources(
        alloc: Global,
        sources: &[u32],
        per: usize,
        count: usize,
    ) -> Result<Rows, AllocError>
        requires per { 0 < per }
        requires few { length sources.now < 2 ^ 32 }
        ensures { IfOk result (λ rows. rows ≡ rows_of per sources.now count) }
    {
        let chain = chain_of(alloc, sources, count)?;
        let mut offsets = Vec::with_capacity(alloc, chain.firsts.len() + 1)?;
        let mut targets = Vec::with_capacity(alloc, sources.len())?;
        offsets.push(0)?;
        for source in 0..count {
            append_row(
                &chain.firsts,
                &chain.nexts,
                sources,
                per,
                source,
                &mut targets,
            )?;
            offsets.push(targets.len() as u32)?;
        }
        targets.shrink_to_fit();
        Ok(Rows { offsets, targets })
    }

    /// The row of a source. Takes no memory.
    pub fn row(&self, source: u32) -> &[u32]
        requires { source < length self.now }
        ensures { result.now ≡ slice_index_or self.now source [] }
    {
        row_at(&self.offsets, &self.targets, source as usize)
    }
}

// The row of a source.
fn row_at<'a>(offsets: &[u32], targets: &'a [u32], source: usize) -> &'a [u32]
    requires within { source + 1 < length offsets.now }
    requires ends { (slice_index offsets.now source ≤ slice_index offsets.now (source + 1)) × (slice_index offsets.now (source + 1) ≤ length targets.now) }
    ensures { result.now ≡ row_in offsets.now targets.now source }
{
    let from = offsets[source] as usize;
    let to = offsets[source + 1] as usize;
    &targets[from..to]
}
