//! Checks: each is done as soon as its nodes are made.

ghost use Rattle.std.specs.Prelude.{◌≡◌, ℕ, suc, ◌+◌, ◌<◌, ◌≤◌, length, IfOk, OnOk, slice_index_or};
ghost use Rattle.reg_machine.specs.Flow.{loads_of};
ghost use Rattle.register_alloc.specs.Width.{tests_by};
ghost use Rattle.register_alloc.specs.inner.Sound.{IsSound, IsSettled, checks_read, IsShort};

use crate::clear::clear_tested;
use crate::moment::Moment;
use crate::room::Room;
use crate::task::Task;
use flat_code::Check;
use reg_machine::{Instr, REGISTERS};
use std::alloc::AllocError;

impl Room {
    /// Does the next check, whose nodes are made.
    fn test(&mut self, flat: &Task, at: Moment, check: Check) -> Result<Moment, AllocError>
        requires sound { IsSound flat.now at self.old }
        requires next { at.checked < length flat.now.checks }
        requires check { check ≡ slice_index_or flat.now.checks at.checked check }
        requires guard { check.guard < at.made }
        requires condition { check.condition < at.made }
        requires few { length self.old.code.instrs + 5 < 4294967295 }
        ensures sound { IfOk result (λ next. IsSound flat.now next self.new) }
        ensures next { IfOk result (λ next. next ≡ record at { checked = suc at.checked }) }
        ensures counts { OnOk result (self.new.code.counts ≡ self.old.code.counts) }
        ensures len { OnOk result (length self.new.code.instrs ≤ length self.old.code.instrs + 5) }
        ensures loads { OnOk result ((y : ℕ) → loads_of y self.new.code ≤ loads_of y self.old.code + tests_by y check) }
    {
        let guard = self.fetch(flat, at, check.guard as usize, REGISTERS, REGISTERS)?;
        let condition = self.fetch(flat, at, check.condition as usize, guard, REGISTERS)?;
        self.code.add(Instr::Check(guard, condition, check.over_only, check.label))?;
        let next = Moment {
            made: at.made,
            read: at.read,
            checked: at.checked + 1,
        };
        clear_tested(&mut self.slots, flat, next, check)?;
        Ok(next)
    }

    /// Does all checks whose nodes are made, in order.
    pub fn settle(&mut self, flat: &Task, start: Moment) -> Result<Moment, AllocError>
        requires sound { IsSound flat.now start self.old }
        requires short { IsShort flat.now start self.old.code.instrs }
        ensures sound { IfOk result (λ at. IsSound flat.now at self.new) }
        ensures same { IfOk result (λ at. at ≡ record start { checked = at.checked }) }
        ensures settled { IfOk result (λ at. IsSettled flat.now at.made at.checked) }
        ensures counts { OnOk result (self.new.code.counts ≡ self.old.code.counts) }
        ensures short { IfOk result (λ at. IsShort flat.now at self.new.code.instrs) }
        ensures loads { IfOk result (λ at. (y : ℕ) → loads_of y self.new.code + checks_read flat.now start.checked y
            ≤ loads_of y self.old.code + checks_read flat.now at.checked y) }
    {
        let mut at = start;
        while let Some(check) = flat.ready(at) {
            at = self.test(flat, at, check)?;
        }
        Ok(at)
    }
}
