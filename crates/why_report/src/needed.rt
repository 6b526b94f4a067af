//! The cells that a cell needs.

ghost use Rattle.std.specs.Prelude.{◌≡◌, ℕ, ◌<◌, ◌≤◌, true, false, All, drop, length, replicate, slice_index_or};
ghost use Rattle.micro_m.specs.Bases.{IsValidBase, is_among};
ghost use Rattle.rule_order.specs.Orders.{IsOrder};
ghost use Rattle.why_report.specs.Reasons.{needed_cells};
ghost use Rattle.why_report.specs.inner.Plans.{IsPlanOf};
ghost use Rattle.why_report.specs.inner.Terms.{AreTerms};

use crate::marks::{mark_cell, mark_read};
use crate::plan::Plan;
use crate::terms::Terms;
use dirty_set::Bits;
use rule_order::Ordered;
use std::snapshot::Snapshot;

/// Writes the cells that a cell needs, itself included, to the end of a list, each after those that
/// it reads, and returns the position of the first. Only marked spots are visited.
pub(crate) fn find_needed(
    ordered: &Snapshot<Ordered>,
    terms: &Terms,
    plan: &Plan,
    cell: u32,
    marked: &mut Bits,
    known: &mut [usize],
    needed: &mut [u32],
) -> usize
    requires valid { IsValidBase ordered.now.value.base }
    requires order { IsOrder ordered.now.value.base ordered.now.value.sequence }
    requires terms { AreTerms ordered.now.value.base ordered.now.value.base.cells terms.now }
    requires plan { IsPlanOf ordered.now.value plan.now }
    requires cell { cell < ordered.now.value.base.cells }
    requires empty { marked.old ≡ replicate ordered.now.value.base.cells false }
    requires known { length known.old ≡ ordered.now.value.base.cells }
    requires none { (c : ℕ) → slice_index_or known.old c 0 ≡ 0 }
    requires room { length needed.old ≡ ordered.now.value.base.cells }
    ensures within { result ≤ length needed.new }
    ensures needed { drop result needed.new ≡ needed_cells ordered.now.value cell }
    ensures marks { length marked.new ≡ ordered.now.value.base.cells }
    ensures known { (c : ℕ) → (slice_index_or known.new c 0 ≡ 0 → ⊥) → is_among c (needed_cells ordered.now.value cell) ≡ true }
{
    mark_cell(cell as usize, &plan.spots, marked);
    let mut at = needed.len();
    let mut from = 0;
    while let Some(spot) = marked.next_from(from) {
        let found = plan.cells[spot as usize];
        at -= 1;
        needed[at] = found;
        mark_read(ordered, terms, found as usize, &plan.spots, marked, known);
        from = spot + 1;
    }
    at
}

/// Clears all marks and the `known` counts, which are nonzero at these cells only.
pub(crate) fn forget(cells: &[u32], marked: &mut Bits, known: &mut [usize])
    requires cells { All (λ c. c < length known.old) cells.now }
    requires known { (c : ℕ) → (slice_index_or known.old c 0 ≡ 0 → ⊥) → is_among c cells.now ≡ true }
    ensures marked { marked.new ≡ replicate (length marked.old) false }
    ensures known { (c : ℕ) → slice_index_or known.new c 0 ≡ 0 }
    ensures size { length known.new ≡ length known.old }
{
    marked.clear();
    for cell in cells {
        known[*cell as usize] = 0;
    }
}
