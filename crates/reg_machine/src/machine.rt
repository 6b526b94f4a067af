//! The machine that runs code.
ghost use Rattle.std.specs.Prelude.{◌≡◌, ◌<◌, length, IfOk, slice_index_or};
ghost use Rattle.m_fixed.specs.declared.amount.Value.TheVariants.{Undef};
ghost use Rattle.reg_machine.specs.Machine.{answer_of, machine_run};

use crate::cells::Cells;
use crate::code::{Code, Packed};
use m_fixed::Value;
use observables::Stop;
use std::alloc::{AllocError, Global};
use std::marker::Model;

/// A machine for borrowed code, with memory for the slots that it uses and for its outputs.
/// Contracts see the code and the outputs of the last run.
#[derive(Drop)]
pub struct Machine<'a> {
    inputs: u32,
    slots: u32,
    labels: u32,
    outputs: u32,
    packed: &'a [Packed],
    pool: &'a [Value],
    used: &'a [u32],
    cells: Cells,
}

impl<'a> Model for Machine<'a> {
    ghost use Rattle.std.specs.Prelude.{◌≡◌, length};
    ghost use Rattle.std.specs.List.{AllByRecursion};
    ghost use Rattle.reg_machine.specs.declared.instr.TheConstants.{REGISTERS};
    ghost use Rattle.reg_machine.specs.Machine.{Board};
    ghost use Rattle.reg_machine.specs.inner.Packed.{listing_of, IsPacked, AreDistinct};

    ghost Value = { Board };

    ghost view = { λ m. record { code = listing_of m.inputs m.slots m.labels m.outputs m.pool.now m.used.now m.packed.now; outputs = m.cells.outputs.items } };

    ghost invariant = { λ m. AllByRecursion (IsPacked m.inputs m.outputs (length m.pool.now) (length m.used.now)) m.packed.now
        × AreDistinct m.used.now
        × (length m.cells.slots.items ≡ length m.used.now)
        × (length m.cells.outputs.items ≡ m.outputs) };
}

impl<'a> Machine<'a> {
    /// A machine for this code. Takes memory for the slots that are stored to, not for the number
    /// of slots. The only error is running out of memory.
    pub fn new(alloc: Global, code: &'a Code) -> Result<Machine<'a>, AllocError>
        ensures { IfOk result (λ machine. machine.code ≡ code.now) }
    {
        let cells = Cells::new(alloc, code.used.len(), code.outputs as usize)?;
        Ok(Machine {
            inputs: code.inputs,
            slots: code.slots,
            labels: code.labels,
            outputs: code.outputs,
            packed: code.packed.as_slice(),
            pool: code.pool.as_slice(),
            used: code.used.as_slice(),
            cells,
        })
    }

    /// Runs the code for these inputs, and returns the stop if a check ends the run. Every run
    /// starts from undefined values. Takes no memory, and one step for each instruction, slot and
    /// output.
    pub fn run(&mut self, inputs: &[Value]) -> Option<Stop>
        requires { length inputs.now ≡ self.old.code.counts.inputs }
        ensures answer { answer_of result self.new.outputs ≡ machine_run self.old.code inputs.now }
        ensures code { self.new.code ≡ self.old.code }
    {
        self.cells.clear();
        self.cells.run(self.packed, self.pool, self.used, inputs)
    }

    /// The output with this number of the last run, which must not have stopped.
    pub fn output(&self, k: u32) -> Value
        requires { k < self.now.code.counts.outputs }
        ensures { result ≡ slice_index_or self.now.outputs k Undef }
    {
        self.cells.outputs[k as usize]
    }
}
