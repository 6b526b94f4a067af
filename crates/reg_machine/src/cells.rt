//! The registers, slots and outputs of a run.
ghost use Rattle.std.specs.Prelude.{◌≡◌, length, replicate, map, IfOk};
ghost use Rattle.std.specs.List.{AllByRecursion};
ghost use Rattle.m_fixed.specs.declared.amount.Value.TheVariants.{Undef};
ghost use Rattle.reg_machine.specs.Machine.{fresh, answer_of, answer_behind};
ghost use Rattle.reg_machine.specs.inner.Packed.{IsPacked, AreDistinct, unpacked};
ghost use Rattle.reg_machine.specs.inner.Cells.{registers_behind, slots_behind, outputs_behind, stop_behind, Mirrors};

use crate::code::Packed;
use crate::instr::REGISTERS;
use flat_code::stop_at;
use m_fixed::{Value, apply};
use observables::Stop;
use std::alloc::{AllocError, Global};

/// The values of the registers, the used slots and the outputs.
#[derive(Drop)]
pub struct Cells {
    pub registers: [Value; REGISTERS as usize],
    pub slots: Vec<Value>,
    pub outputs: Vec<Value>,
}

/// Makes all values undefined.
fn clear(values: &mut [Value])
    ensures { values.new ≡ replicate (length values.old) Undef }
{
    for value in values.iter_mut() {
        *value = Value::Undef;
    }
}

impl Cells {
    // Executes one instruction. Returns the stop if it ends the run.
    fn act(&mut self, packed: Packed, pool: &[Value], inputs: &[Value]) -> Option<Stop>
        requires { IsPacked (length inputs.now) (length self.old.outputs.items) (length pool.now) (length self.old.slots.items) packed }
        ensures stop { result ≡ stop_behind self.old.registers packed }
        ensures registers { self.new.registers ≡ registers_behind inputs.now pool.now self.old.registers self.old.slots.items packed }
        ensures slots { self.new.slots.items ≡ slots_behind self.old.registers self.old.slots.items packed }
        ensures outputs { self.new.outputs.items ≡ outputs_behind self.old.registers self.old.outputs.items packed }
    {
        match packed {
            Packed::Take(r, n) => self.registers[r as usize] = inputs[n as usize],
            Packed::Lit(r, at) => self.registers[r as usize] = pool[at as usize],
            Packed::Do(op, r, a, b, c) => {
                self.registers[r as usize] = apply(
                    op,
                    self.registers[a as usize],
                    self.registers[b as usize],
                    self.registers[c as usize],
                )
            }
            Packed::Store(k, r) => self.slots[k as usize] = self.registers[r as usize],
            Packed::Load(r, k) => self.registers[r as usize] = self.slots[k as usize],
            Packed::Check(g, c, over_only, label) => {
                return stop_at(
                    self.registers[g as usize],
                    over_only,
                    label,
                    self.registers[c as usize],
                );
            }
            Packed::Output(k, r) => self.outputs[k as usize] = self.registers[r as usize],
        }
        None
    }

    /// Cells for this number of used slots and outputs. The only error is running out of memory.
    pub fn new(alloc: Global, slots: usize, outputs: usize) -> Result<Cells, AllocError>
        ensures slots { IfOk result (λ cells. length cells.slots.items ≡ slots) }
        ensures outputs { IfOk result (λ cells. length cells.outputs.items ≡ outputs) }
    {
        Ok(Cells {
            registers: [Value::Undef; REGISTERS as usize],
            slots: vec![in alloc; Value::Undef; slots]?,
            outputs: vec![in alloc; Value::Undef; outputs]?,
        })
    }

    /// Makes all values undefined.
    pub fn clear(&mut self)
        ensures registers { self.new.registers ≡ replicate (length self.old.registers) Undef }
        ensures slots { self.new.slots.items ≡ replicate (length self.old.slots.items) Undef }
        ensures outputs { self.new.outputs.items ≡ replicate (length self.old.outputs.items) Undef }
    {
        clear(&mut self.registers);
        clear(&mut self.slots);
        clear(&mut self.outputs);
    }

    /// Executes instructions in order, from undefined values. Returns the stop if one ends the run.
    /// Takes no memory.
    pub fn run(
        &mut self,
        packed: &[Packed],
        pool: &[Value],
        used: &[u32],
        inputs: &[Value],
    ) -> Option<Stop>
        requires fresh { Mirrors used.now (fresh (length self.old.outputs.items)) self.old.registers self.old.slots.items self.old.outputs.items }
        requires packed { AllByRecursion (IsPacked (length inputs.now) (length self.old.outputs.items) (length pool.now) (length used.now)) packed.now }
        requires distinct { AreDistinct used.now }
        ensures answer { answer_of result self.new.outputs.items
            ≡ answer_behind inputs.now (length self.old.outputs.items) (map (unpacked pool.now used.now) packed.now) }
        ensures slots { length self.new.slots.items ≡ length self.old.slots.items }
        ensures outputs { length self.new.outputs.items ≡ length self.old.outputs.items }
    {
        for instr in packed {
            let stop = self.act(*instr, pool, inputs);
            if stop.is_some() {
                return stop;
            }
        }
        None
    }
}
