//! Numbers the inputs for which rows have amounts, so that a row needs only as many values, however
//! many inputs there are.
ghost use Rattle.std.specs.Prelude.{◌≡◌, ◌<◌, ℕ, IfOk, OnOk, length, slice_index_or};
ghost use Rattle.std.specs.List.{AllByRecursion};
ghost use Rattle.household.specs.Household.{inputs_of};
ghost use Rattle.m_batch.specs.Batch.{HasInputsBelow};
ghost use Rattle.m_batch.specs.inner.Places.{ArePlaced, IsPlacing, HasPlaces, KeepPlaces};

use household::{Household, Row};
use std::alloc::{AllocError, Global};

/// The place of each input, which is 0 if no row has an amount for it, and the input of each place
/// from 1 on.
#[derive(Drop)]
pub struct Places {
    pub of: Vec<usize>,
    pub inputs: Vec<u32>,
}

/// Assigns places to the inputs of rows. Its only error is running out of memory.
pub(crate) fn place_inputs(alloc: Global, inputs: usize, rows: &[Row]) -> Result<Places, AllocError>
    requires { AllByRecursion (HasInputsBelow inputs) rows.now }
    ensures { IfOk result (λ places. ArePlaced inputs places rows.now) }
{
    let mut places = Places {
        of: vec![in alloc; 0; inputs]?,
        inputs: vec![in alloc; 0]?,
    };
    place_rows(rows, &mut places)?;
    Ok(places)
}

fn place_rows(rows: &[Row], places: &mut Places) -> Result<(), AllocError>
    requires inputs { AllByRecursion (HasInputsBelow (length places.old.of.items)) rows.now }
    requires placing { IsPlacing places.old }
    ensures { OnOk result (ArePlaced (length places.old.of.items) places.new rows.now) }
{
    for row in rows {
        place_row(&row.household, places)?;
    }
    Ok(())
}

fn place_row(household: &Household, places: &mut Places) -> Result<(), AllocError>
    requires inputs { AllByRecursion (λ input. input < length places.old.of.items) (inputs_of household.now.pairs) }
    requires placing { IsPlacing places.old }
    ensures placing { OnOk result (IsPlacing places.new) }
    ensures placed { OnOk result (HasPlaces places.new household.now.pairs) }
    ensures kept { OnOk result (KeepPlaces places.old places.new) }
{
    for pair in household.pairs.as_slice() {
        place_input(pair.input(), places)?;
    }
    Ok(())
}

fn place_input(input: u32, places: &mut Places) -> Result<(), AllocError>
    requires input { input < length places.old.of.items }
    requires placing { IsPlacing places.old }
    ensures placing { OnOk result (IsPlacing places.new) }
    ensures placed { OnOk result (0 < slice_index_or places.new.of.items input 0) }
    ensures kept { OnOk result (KeepPlaces places.old places.new) }
{
    if places.of[input as usize] == 0 {
        let place = places.inputs.len();
        places.inputs.push(input)?;
        places.of[input as usize] = place;
    }
    Ok(())
}
