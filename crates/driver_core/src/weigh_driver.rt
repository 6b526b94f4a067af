//! The weight of a driver.

ghost use Rattle.std.specs.Prelude.{◌≡◌, ◌≤◌, min, IfOk, OnOk, length};
ghost use Rattle.micro_m.specs.declared.base.Base.{Base};
ghost use Rattle.driver_core.specs.Weights.{base_weight, weight_of};
ghost use Rattle.driver_core.specs.inner.Capped.{capped};
ghost use Rattle.driver_core.specs.inner.WeightTable.{IsTable, IsFound};

use crate::Core;
use crate::weigh_base::weigh_base;
use crate::weigh_blocks::{entry, is_done};
use crate::weigh_calls::Calls;
use crate::weigh_levels::weigh_by_levels;
use crate::weight_table::Table;
use micro_m::Base;
use std::alloc::{AllocError, Global};

/// The weight of a driver over the rules of a base, with sums that saturate at
/// 18,446,744,073,709,551,615. Each function that `main` reaches is computed once, after those that
/// it calls, with a work list in place of recursion, so a chain of calls takes no stack. If there
/// is a cycle of calls, which no valid driver has, each function is computed once for each level of
/// calls. The only error is running out of memory.
pub fn weight(alloc: Global, core: &Core, base: &Base) -> Result<u64, AllocError>
    ensures { IfOk result (λ w. w ≡ min (weight_of core.now base.now) 18_446_744_073_709_551_615) }
{
    let rules = weigh_base(base);
    let table = table_of(alloc, core, rules, base.cells)?;
    if is_done(&table.done, core.main) {
        return Ok(entry(&table.weights, core.main));
    }
    weigh_by_levels(alloc, core, rules, base.cells)
}

/// The weights of the functions that `main` reaches, itself included, except those on a cycle of
/// calls.
fn table_of(alloc: Global, core: &Core, rules: u64, cells: u32) -> Result<Table, AllocError>
    ensures { IfOk result (λ table. (base : Base) → rules ≡ capped (base_weight base) → cells ≡ base.cells
        → IsFound core.now base table.weights.items table.done.items) }
{
    let count = core.bodies.as_slice().len();
    let mut table = Table {
        weights: vec![in alloc; 0; count]?,
        done: vec![in alloc; false; count]?,
        count: 0,
    };
    weigh_reached(alloc, core, rules, cells, &mut table)?;
    Ok(table)
}

/// Computes the weights of the functions that `main` reaches, itself included, each after those
/// that it calls.
fn weigh_reached(
    alloc: Global,
    core: &Core,
    rules: u64,
    cells: u32,
    table: &mut Table,
) -> Result<(), AllocError>
    requires few { table.old.count ≤ length core.now.bodies }
    ensures table { OnOk result ((base : Base) → rules ≡ capped (base_weight base) → cells ≡ base.cells
        → IsTable core.now base table.old.weights.items table.old.done.items table.old.count
        → IsTable core.now base table.new.weights.items table.new.done.items table.new.count) }
    ensures few { OnOk result (table.new.count ≤ length core.now.bodies) }
{
    let calls = Calls::new(alloc, core)?;
    let mut left = Vec::new(alloc);
    left.push((core.main, calls.start(core.main as usize)))?;
    let mut turns = calls
        .functions
        .len()
        .saturating_add(core.bodies.as_slice().len());
    while let Some((function, place)) = left.pop() {
        if turns == 0 {
            return Ok(());
        }
        turns -= 1;
        match calls.at(function as usize, place) {
            Some(called) => {
                left.push((function, place.saturating_add(1)))?;
                if !is_done(&table.done, called) {
                    left.push((called, calls.start(called as usize)))?;
                }
            }
            None => table.weigh(core, function, rules, cells),
        }
    }
    Ok(())
}
