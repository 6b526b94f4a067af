//! Executes instructions in order, each for all rows of a block.
ghost use Rattle.std.specs.Prelude.{◌≡◌, ◌<◌, ◌≤◌, ℕ, length, slice_set};
ghost use Rattle.std.specs.List.{AllByRecursion};
ghost use Rattle.reg_machine.specs.inner.Cells.{at};
ghost use Rattle.reg_machine.specs.inner.Packed.{IsPacked};
ghost use Rattle.m_batch.specs.inner.Rows.{row_of};
ghost use Rattle.m_batch.specs.inner.Rooms.{AreWide, IsRoom};
ghost use Rattle.m_batch.specs.inner.Ran.{IsStep, AreAnswered};

use crate::check::{check_rows, have_stopped};
use crate::each::{give_copy, give_inputs, give_literal, give_result};
use crate::room::{BLOCK, Room};
use m_fixed::Value;
use reg_machine::Packed;

/// Runs instructions on rows, from the state of the room. It may end early if each row has stopped.
/// Takes no memory.
pub(crate) fn run_rows(
    packed: &[Packed],
    pool: &[Value],
    numbers: &[usize],
    rows: &[Vec<Value>],
    room: &mut Room,
)
    requires packed { AllByRecursion (IsPacked (length numbers.now) (length room.old.outputs.items)
        (length pool.now) (length room.old.slots.items)) packed.now }
    requires width { length rows.now ≤ BLOCK }
    requires room { IsRoom (length room.old.slots.items) (length room.old.outputs.items) room.old }
    ensures room { IsRoom (length room.old.slots.items) (length room.old.outputs.items) room.new }
    ensures rows { AreAnswered numbers.now rows.now pool.now packed.now room.old room.new }
{
    for n in 0..packed.len() {
        step(packed[n], pool, numbers, rows, room);
        if matches!(&packed[n], Packed::Check(..)) && have_stopped(rows.len(), &room.stops) {
            return;
        }
    }
}

/// Executes an instruction for all rows. A row that has stopped is computed on, but only its stop
/// is read.
fn step(packed: Packed, pool: &[Value], numbers: &[usize], rows: &[Vec<Value>], room: &mut Room)
    requires packed { IsPacked (length numbers.now) (length room.old.outputs.items) (length pool.now) (length room.old.slots.items) packed }
    requires width { length rows.now ≤ BLOCK }
    requires room { IsRoom (length room.old.slots.items) (length room.old.outputs.items) room.old }
    ensures room { IsRoom (length room.old.slots.items) (length room.old.outputs.items) room.new }
    ensures rows { IsStep numbers.now rows.now pool.now packed room.old room.new }
{
    match packed {
        Packed::Take(r, n) => {
            give_inputs(numbers[n as usize], rows, &mut room.scratch);
            place(room.registers.as_mut_slice(), r as usize, &mut room.scratch);
        }
        Packed::Lit(r, at) => {
            give_literal(&pool[at as usize], rows.len(), &mut room.scratch);
            place(room.registers.as_mut_slice(), r as usize, &mut room.scratch);
        }
        Packed::Do(op, r, a, b, c) => {
            let registers = room.registers.as_slice();
            give_result(op, (a, b, c), registers, rows.len(), &mut room.scratch);
            place(room.registers.as_mut_slice(), r as usize, &mut room.scratch);
        }
        Packed::Store(k, r) => {
            give_copy(&room.registers[r as usize], rows.len(), &mut room.scratch);
            place(room.slots.as_mut_slice(), k as usize, &mut room.scratch);
        }
        Packed::Load(r, k) => {
            give_copy(&room.slots[k as usize], rows.len(), &mut room.scratch);
            place(room.registers.as_mut_slice(), r as usize, &mut room.scratch);
        }
        Packed::Check(guard, condition, over_only, label) => {
            check_rows(
                guard as usize,
                condition as usize,
                over_only,
                label,
                room.registers.as_slice(),
                rows.len(),
                &mut room.stops,
            );
        }
        Packed::Output(k, r) => {
            give_copy(&room.registers[r as usize], rows.len(), &mut room.scratch);
            place(room.outputs.as_mut_slice(), k as usize, &mut room.scratch);
        }
    }
}

// Swaps the result into a column; the old column receives the next result.
fn place(columns: &mut [Vec<Value>], k: usize, scratch: &mut Vec<Value>)
    requires within { k < length columns.old }
    requires wide { AreWide columns.old }
    requires scratch { BLOCK ≤ length scratch.old.items }
    ensures many { length columns.new ≡ length columns.old }
    ensures wide { AreWide columns.new }
    ensures scratch { BLOCK ≤ length scratch.new.items }
    ensures rows { (r : ℕ) → row_of r columns.new ≡ slice_set (row_of r columns.old) k (at scratch.old.items r) }
{
    std::mem::swap(&mut columns[k], scratch);
}
