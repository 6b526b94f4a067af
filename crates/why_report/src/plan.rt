//! The order in which `why` visits the cells of an ordered base: each cell before those that it
//! reads.

ghost use Rattle.std.specs.Prelude.{◌≡◌, ◌<◌, ◌≤◌, ◌++◌, [], IfOk, OnOk, All, length};
ghost use Rattle.micro_m.specs.Bases.{AreDistinctCells, IsValidBase};
ghost use Rattle.rule_order.specs.Orders.{IsOrder};
ghost use Rattle.why_report.specs.Reasons.{bare_below, cells_down, targets_down};
ghost use Rattle.why_report.specs.inner.Checked.{ArePlaces};
ghost use Rattle.why_report.specs.inner.Plans.{AreSpotsOf, IsPlanOf};

use micro_m::Base;
use rule_order::Ordered;
use std::alloc::{AllocError, Global};

/// The plan of an ordered base: the cells, each before those that it reads, and for each cell its
/// spot, which is its position among them.
#[derive(Drop)]
pub(crate) struct Plan {
    pub(crate) cells: Vec<u32>,
    pub(crate) spots: Vec<u32>,
}

/// The plan of an ordered base.
pub(crate) fn plan_of(
    alloc: Global,
    ordered: &Ordered,
    places: &[usize],
) -> Result<Plan, AllocError>
    requires valid { IsValidBase ordered.now.base }
    requires order { IsOrder ordered.now.base ordered.now.sequence }
    requires places { ArePlaces ordered.now.base places.now }
    ensures { IfOk result (IsPlanOf ordered.now) }
{
    let cells = cells_of(alloc, ordered, places)?;
    let spots = spots_of(alloc, &cells, ordered.base.cells)?;
    Ok(Plan { cells, spots })
}

// The cells, each before those that it reads.
fn cells_of(alloc: Global, ordered: &Ordered, places: &[usize]) -> Result<Vec<u32>, AllocError>
    requires valid { IsValidBase ordered.now.base }
    requires order { IsOrder ordered.now.base ordered.now.sequence }
    requires places { ArePlaces ordered.now.base places.now }
    ensures { IfOk result (λ cells. cells.items ≡ cells_down ordered.now) }
{
    let mut cells = Vec::with_capacity(alloc, ordered.base.cells as usize)?;
    add_targets(ordered, &mut cells)?;
    add_bare(&ordered.base, places, &mut cells)?;
    Ok(cells)
}

// Appends the cells that have definitions, from the last of the order to the first.
fn add_targets(ordered: &Ordered, cells: &mut Vec<u32>) -> Result<(), AllocError>
    requires order { IsOrder ordered.now.base ordered.now.sequence }
    requires none { cells.old.items ≡ [] }
    ensures { OnOk result (cells.new.items ≡ targets_down ordered.now.base ordered.now.sequence []) }
{
    let definitions = ordered.base.definitions.as_slice();
    let sequence = ordered.sequence.as_slice();
    let mut left = sequence.len();
    while left > 0 {
        left -= 1;
        cells.push(definitions[sequence[left] as usize].0)?;
    }
    Ok(())
}

// Appends the cells that have no definition, from the greatest to the least.
fn add_bare(base: &Base, places: &[usize], cells: &mut Vec<u32>) -> Result<(), AllocError>
    requires { ArePlaces base.now places.now }
    ensures { OnOk result (cells.new.items ≡ cells.old.items ++ bare_below base.now base.now.cells) }
{
    let mut left = base.cells;
    while left > 0 {
        left -= 1;
        if places[left as usize] == 0 {
            cells.push(left)?;
        }
    }
    Ok(())
}

// For each cell below `count` its position among these cells, which are distinct.
fn spots_of(alloc: Global, cells: &[u32], count: u32) -> Result<Vec<u32>, AllocError>
    requires once { AreDistinctCells cells.now }
    requires within { All (λ c. c < count) cells.now }
    requires few { length cells.now ≤ count }
    ensures size { IfOk result (λ spots. length spots.items ≡ count) }
    ensures spots { IfOk result (λ spots. AreSpotsOf cells.now spots.items) }
{
    let mut spots = vec![in alloc; 0u32; count as usize]?;
    for (spot, cell) in cells.iter().enumerate() {
        spots[*cell as usize] = spot as u32;
    }
    Ok(spots)
}
