//! The definition of each cell, by the cell's number.

ghost use Rattle.std.specs.Prelude.{◌≡◌, ◌<◌, IfOk, option_copied};
ghost use Rattle.micro_m.specs.Bases.{IsValidBase, definition_of};
ghost use Rattle.why_report.specs.inner.Checked.{ArePlaces};

use micro_m::{Base, MTerm};
use std::alloc::{AllocError, Global};

/// For each cell one more than the position of its definition, and 0 where it has none.
pub fn places_of(alloc: Global, base: &Base) -> Result<Vec<usize>, AllocError>
    requires { IsValidBase base.now }
    ensures { IfOk result (λ places. ArePlaces base.now places.items) }
{
    let mut places = vec![in alloc; 0; base.cells as usize]?;
    for (position, definition) in base.definitions.as_slice().iter().enumerate() {
        places[definition.0 as usize] = position + 1;
    }
    Ok(places)
}

/// The term that defines a cell, if it has a definition.
pub fn definition_at<'a>(base: &'a Base, places: &[usize], cell: usize) -> Option<&'a MTerm>
    requires places { ArePlaces base.now places.now }
    requires cell { cell < base.now.cells }
    ensures { option_copied result ≡ definition_of base.now cell }
{
    let place = places[cell];
    if place == 0 {
        return None;
    }
    Some(&base.definitions.as_slice()[place - 1].1)
}
