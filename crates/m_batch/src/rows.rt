//! Writes the amounts of rows to the places of their inputs.
ghost use Rattle.std.specs.Prelude.{◌≡◌, ◌<◌, ◌≤◌, ℕ, [], length, slice_index_or};
ghost use Rattle.std.specs.List.{AllByRecursion};
ghost use Rattle.household.specs.declared.table.Row.{Row};
ghost use Rattle.household.specs.Household.{values_of};
ghost use Rattle.m_batch.specs.inner.Rows.{row_at, row_inputs};
ghost use Rattle.m_batch.specs.inner.Places.{IsPlacing, HasPlaces, IsFilled, AreRows, RowHasPlaces};

use crate::places::Places;
use household::{Household, Row};
use m_fixed::Value;

/// Writes the amounts of each row over the list of values at its position.
pub(crate) fn put_rows(rows: &[Row], places: &Places, block: &mut [Vec<Value>])
    requires many { length rows.now ≤ length block.old }
    requires placing { IsPlacing places.now }
    requires placed { AllByRecursion (RowHasPlaces places.now) rows.now }
    requires width { AreRows (length places.now.inputs.items) block.old }
    ensures many { length block.new ≡ length block.old }
    ensures width { AreRows (length places.now.inputs.items) block.new }
    ensures values { (r : ℕ) (d : Row) → r < length rows.now → row_inputs places.now.of.items (row_at block.new r)
        ≡ values_of (slice_index_or rows.now r d).household.pairs (length places.now.of.items) }
{
    for r in 0..rows.len() {
        put_row(&rows[r], places, block[r].as_mut_slice());
    }
}

// Writes the amounts of one row.
fn put_row(given: &Row, places: &Places, row: &mut [Value])
    requires placing { IsPlacing places.now }
    requires placed { RowHasPlaces places.now given.now }
    requires width { length row.old ≡ length places.now.inputs.items }
    ensures width { length row.new ≡ length row.old }
    ensures values { row_inputs places.now.of.items row.new ≡ values_of given.now.household.pairs (length places.now.of.items) }
{
    row.fill(Value::Undef);
    put_pairs(&given.household, places, row);
}

// Writes the amounts of a household into undefined values. For an input with several pairs the
// first one is used.
fn put_pairs(household: &Household, places: &Places, row: &mut [Value])
    requires placing { IsPlacing places.now }
    requires placed { HasPlaces places.now household.now.pairs }
    requires width { length row.old ≡ length places.now.inputs.items }
    requires empty { IsFilled places.now row.old [] }
    ensures width { length row.new ≡ length row.old }
    ensures values { IsFilled places.now row.new household.now.pairs }
{
    let pairs = household.pairs.as_slice();
    let mut left = pairs.len();
    while left > 0 {
        left -= 1;
        let pair = pairs[left];
        let place = places.of[pair.input() as usize];
        row[place] = Value::Num(pair.amount());
    }
}
