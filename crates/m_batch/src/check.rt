//! Checks, for all rows of a block: the first stop of each row is kept.
ghost use Rattle.std.specs.Prelude.{◌≡◌, ◌<◌, ◌≤◌, ℕ, length, slice_index_or, None, IsSome, IsTrue};
ghost use Rattle.reg_machine.specs.inner.Cells.{at};
ghost use Rattle.m_batch.specs.inner.Rows.{row_of};
ghost use Rattle.m_batch.specs.inner.Rooms.{AreWide, check_stop, kept};

use crate::each::front;
use crate::room::BLOCK;
use flat_code::stop_at;
use m_fixed::Value;
use observables::Stop;

/// Marks all rows as not stopped.
pub(crate) fn clear_stops(many: usize, stops: &mut Vec<Option<Stop>>)
    requires width { many ≤ length stops.old.items }
    ensures room { length stops.new.items ≡ length stops.old.items }
    ensures value { (r : ℕ) → r < many → slice_index_or stops.new.items r None ≡ None }
{
    let (front, _) = stops.as_mut_slice().split_at_mut(many);
    clear_front(front);
}

fn clear_front(stops: &mut [Option<Stop>])
    ensures { (r : ℕ) → r < length stops.old → slice_index_or stops.new r None ≡ None }
{
    for r in 0..stops.len() {
        stops[r] = None;
    }
}

/// Whether all rows have stopped. It looks no further than the first that hasn't.
pub(crate) fn have_stopped(many: usize, stops: &Vec<Option<Stop>>) -> bool
    requires width { many ≤ length stops.now.items }
    ensures { IsTrue result → (r : ℕ) → r < many → IsSome (slice_index_or stops.now.items r None) }
{
    for r in 0..many {
        if stops[r].is_none() {
            return false;
        }
    }
    true
}

/// Does one check for all rows.
pub(crate) fn check_rows(
    guard: usize,
    condition: usize,
    over_only: bool,
    label: u32,
    registers: &[Vec<Value>],
    many: usize,
    stops: &mut Vec<Option<Stop>>,
)
    requires guard { guard < length registers.now }
    requires condition { condition < length registers.now }
    requires many { many ≤ BLOCK }
    requires wide { AreWide registers.now }
    requires width { many ≤ length stops.old.items }
    ensures room { length stops.new.items ≡ length stops.old.items }
    ensures value { (r : ℕ) → r < many → slice_index_or stops.new.items r None ≡ kept (slice_index_or stops.old.items r None)
        (check_stop (at (row_of r registers.now) guard) (at (row_of r registers.now) condition) over_only label) }
{
    let (front, _) = stops.as_mut_slice().split_at_mut(many);
    check_front(guard, condition, over_only, label, registers, front);
}

fn check_front(
    guard: usize,
    condition: usize,
    over_only: bool,
    label: u32,
    registers: &[Vec<Value>],
    stops: &mut [Option<Stop>],
)
    requires guard { guard < length registers.now }
    requires condition { condition < length registers.now }
    requires width { length stops.old ≤ BLOCK }
    requires wide { AreWide registers.now }
    ensures { (r : ℕ) → r < length stops.old → slice_index_or stops.new r None ≡ kept (slice_index_or stops.old r None)
        (check_stop (at (row_of r registers.now) guard) (at (row_of r registers.now) condition) over_only label) }
{
    let many = stops.len();
    check_columns(
        front(&registers[guard], many),
        front(&registers[condition], many),
        over_only,
        label,
        stops,
    );
}

fn check_columns(
    guard: &[Value],
    condition: &[Value],
    over_only: bool,
    label: u32,
    stops: &mut [Option<Stop>],
)
    requires guard { length guard.now ≡ length stops.old }
    requires condition { length condition.now ≡ length stops.old }
    ensures { (r : ℕ) → r < length stops.old → slice_index_or stops.new r None ≡ kept (slice_index_or stops.old r None)
        (check_stop (at guard.now r) (at condition.now r) over_only label) }
{
    for r in 0..stops.len() {
        stops[r] = first_stop(stops[r], stop_of(guard[r], condition[r], over_only, label));
    }
}

#[inline(always)]
fn first_stop(before: Option<Stop>, later: Option<Stop>) -> Option<Stop>
    ensures { result ≡ kept before later }
{
    match before {
        Some(stop) => Some(stop),
        None => later,
    }
}

#[inline(always)]
#[tactic(auto, unfolding(crate::specs::inner::Rooms::check_stop))]
fn stop_of(guard: Value, condition: Value, over_only: bool, label: u32) -> Option<Stop>
    ensures { result ≡ check_stop guard condition over_only label }
{
    stop_at(guard, over_only, label, condition)
}
