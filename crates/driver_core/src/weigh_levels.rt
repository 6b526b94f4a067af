//! The weights of functions, level by level, without the call graph.

ghost use Rattle.std.specs.Prelude.{◌≡◌, IfOk, map, slice_index_or};
ghost use Rattle.micro_m.specs.declared.base.Base.{Base};
ghost use Rattle.driver_core.specs.ActionView.{block_of};
ghost use Rattle.driver_core.specs.Weights.{base_weight, block_weight, weight_of};
ghost use Rattle.driver_core.specs.inner.Capped.{capped};

use crate::weigh_blocks::{entry, weigh_block};
use crate::{CCommand, Core};
use m_places::Seq;
use std::alloc::{AllocError, Global};

/// The weight of `main`; each function is computed once for each level of calls: first with no call
/// followed, then with calls followed one level deep, and so on.
pub fn weigh_by_levels(
    alloc: Global,
    core: &Core,
    rules: u64,
    cells: u32,
) -> Result<u64, AllocError>
    ensures { IfOk result (λ w. (base : Base) → rules ≡ capped (base_weight base) → cells ≡ base.cells
        → w ≡ capped (weight_of core.now base)) }
{
    let bodies = core.bodies.as_slice();
    let count = bodies.len();
    let mut weights = vec![in alloc; 0; count]?;
    let mut level = 0;
    while level < count {
        weights = next_level(alloc, bodies, rules, cells as u64, &weights)?;
        level += 1;
    }
    let last = next_level(alloc, bodies, rules, cells as u64, &weights)?;
    Ok(entry(&last, core.main))
}

/// The weights of all functions, given those of the functions that they call.
fn next_level(
    alloc: Global,
    bodies: &[Seq<CCommand>],
    rules: u64,
    cells: u64,
    weights: &[u64],
) -> Result<Vec<u64>, AllocError>
    ensures { IfOk result (λ next. next.items
        ≡ map (λ commands. capped (block_weight rules cells (λ f. slice_index_or weights.now f 0) (block_of commands))) bodies.now) }
{
    let mut next = Vec::new(alloc);
    for body in bodies {
        let weight = weigh_block(body.as_slice(), rules, cells, weights);
        next.push(weight)?;
    }
    Ok(next)
}
