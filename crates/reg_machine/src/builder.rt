//! Builds code one instruction at a time, and rejects a wrong instruction.
ghost use Rattle.std.specs.Prelude.{◌≡◌, ◌<◌, length, IfOk, OnOk, OnErr, MatchOption, Some, None, is_some, true, []};
ghost use Rattle.reg_machine.specs.Flow.{State, wrong_behind, with_instr, with_slots, reading, has_numbers, moved, all_given, code_fault, repeats_first};
ghost use Rattle.reg_machine.specs.declared.instr.Instr.TheVariants.{Take, Lit, Do, Store, Load, Check, Output};
ghost use Rattle.reg_machine.specs.declared.wrong.CodeWrong.TheVariants.{NoOutput};
ghost use Rattle.reg_machine.specs.inner.Packed.{IsRight};

use crate::code::{Code, Packed};
use crate::instr::{Instr, REGISTERS};
use crate::used::UsedSlots;
use crate::wrong::Wrong;
use m_fixed::{Op, Value, arity};
use std::alloc::{AllocError, Global};
use std::collections::BTreeSet;
use std::marker::Model;

/// Valid code so far; outputs may still be missing. Contracts see its counts and its list of
/// instructions.
#[derive(Drop)]
pub struct CodeBuilder {
    inputs: u32,
    slots: u32,
    labels: u32,
    outputs: u32,
    packed: Vec<Packed>,
    pool: Vec<Value>,
    used: UsedSlots,
    written: [bool; REGISTERS as usize],
    given: BTreeSet<u32>,
}

impl Model for CodeBuilder {
    ghost use Rattle.reg_machine.specs.Flow.{Listing};
    ghost use Rattle.reg_machine.specs.inner.Packed.{listing_of, IsDraft};

    ghost Value = { Listing };

    ghost view = { λ b. listing_of b.inputs b.slots b.labels b.outputs b.pool.items b.used b.packed.items };

    ghost invariant = { λ b. IsDraft (listing_of b.inputs b.slots b.labels b.outputs b.pool.items b.used b.packed.items)
        b.packed.items b.pool.items b.used b.written b.given };
}

// Whether arguments past the operator's arity equal the first.
fn repeats_first(op: Op, a: u8, b: u8, c: u8) -> bool
    ensures { result ≡ repeats_first op a b c }
{
    (arity(op) >= 2 || b == a) && (arity(op) >= 3 || c == a)
}

impl CodeBuilder {
    /// Code without instructions, with these counts. Takes no memory.
    pub fn new(alloc: Global, inputs: u32, slots: u32, labels: u32, outputs: u32) -> CodeBuilder
        ensures { result ≡ record { counts = record { inputs = inputs; slots = slots; labels = labels; outputs = outputs }; instrs = [] } }
    {
        CodeBuilder {
            inputs,
            slots,
            labels,
            outputs,
            packed: Vec::new(alloc),
            pool: Vec::new(alloc),
            used: UsedSlots::new(alloc),
            written: [false; REGISTERS as usize],
            given: BTreeSet::new(alloc),
        }
    }

    // Whether all numbers of an instruction are valid after the code so far.
    fn has_numbers(&self, instr: &Instr) -> bool
        ensures { (s : State) → reading self.now ≡ Some s → result ≡ has_numbers self.now.counts s instr.now }
    {
        match *instr {
            Instr::Take(r, n) => r < REGISTERS && n < self.inputs,
            Instr::Lit(r, _) => r < REGISTERS,
            Instr::Do(op, r, a, b, c) => {
                r < REGISTERS
                    && a < REGISTERS
                    && b < REGISTERS
                    && c < REGISTERS
                    && repeats_first(op, a, b, c)
            }
            Instr::Store(k, r) => k < self.slots && r < REGISTERS,
            Instr::Load(r, k) => r < REGISTERS && k < self.slots,
            Instr::Check(g, c, _, label) => g < REGISTERS && c < REGISTERS && label < self.labels,
            Instr::Output(k, r) => k < self.outputs && r < REGISTERS && !self.given.contains(&k),
        }
    }

    // Whether a register was written.
    fn holds(&self, register: u8) -> bool
        ensures { (s : State) → reading self.now ≡ Some s → result ≡ is_some (s.registers register) }
    {
        match self.written.get(register as usize) {
            Some(written) => *written,
            None => false,
        }
    }

    // Whether a slot was written.
    fn keeps(&self, slot: u32) -> bool
        ensures { (s : State) → reading self.now ≡ Some s → result ≡ is_some (s.slots slot) }
    {
        self.used.find(slot).is_some()
    }

    // Whether everything that an instruction reads was written.
    fn has_read(&self, instr: &Instr) -> bool
        ensures { (s : State) → reading self.now ≡ Some s → result ≡ is_some (moved instr.now s) }
    {
        match *instr {
            Instr::Take(..) | Instr::Lit(..) => true,
            Instr::Do(_, _, a, b, c) => self.holds(a) && self.holds(b) && self.holds(c),
            Instr::Store(_, r) | Instr::Output(_, r) => self.holds(r),
            Instr::Load(_, k) => self.keeps(k),
            Instr::Check(g, c, _, _) => self.holds(g) && self.holds(c),
        }
    }

    // The error of an instruction after the code so far, if any.
    fn wrong(&self, instr: &Instr) -> Option<Wrong>
        ensures { result ≡ wrong_behind self.now instr.now }
    {
        let _ = &self.inputs;
        if !self.has_numbers(instr) {
            return Some(Wrong::Number);
        }
        if !self.has_read(instr) {
            return Some(Wrong::Order);
        }
        None
    }

    /// Appends an instruction, or returns what is wrong with it. The only error is running out of
    /// memory. If the instruction isn't appended, the code is unchanged.
    pub fn push(&mut self, instr: Instr) -> Result<Option<Wrong>, AllocError>
        requires few { length self.old.instrs < 4294967295 }
        ensures wrong { IfOk result (λ wrong. wrong ≡ wrong_behind self.old instr) }
        ensures added { IfOk result (λ wrong. MatchOption wrong (self.new ≡ with_instr self.old instr) (λ _. self.new ≡ self.old)) }
        ensures same { OnErr result (self.new ≡ self.old) }
    {
        match self.wrong(&instr) {
            Some(wrong) => Ok(Some(wrong)),
            None => {
                self.put(instr)?;
                Ok(None)
            }
        }
    }

    /// Appends a valid instruction.
    pub fn add(&mut self, instr: Instr) -> Result<(), AllocError>
        requires few { length self.old.instrs < 4294967295 }
        requires right { wrong_behind self.old instr ≡ None }
        ensures added { OnOk result (self.new ≡ with_instr self.old instr) }
        ensures same { OnErr result (self.new ≡ self.old) }
    {
        self.put(instr)
    }

    // Appends a valid instruction.
    fn put(&mut self, instr: Instr) -> Result<(), AllocError>
        requires few { length self.old.instrs < 4294967295 }
        requires right { IsRight self.old instr }
        ensures added { OnOk result (self.new ≡ with_instr self.old instr) }
        ensures same { OnErr result (self.new ≡ self.old) }
    {
        match instr {
            Instr::Take(r, n) => self.put_take(r, n),
            Instr::Lit(r, value) => self.put_lit(r, value),
            Instr::Do(op, r, a, b, c) => self.put_do(op, r, a, b, c),
            Instr::Store(k, r) => self.put_store(k, r),
            Instr::Load(r, k) => self.put_load(r, k),
            Instr::Check(g, c, over_only, label) => self.put_check(g, c, over_only, label),
            Instr::Output(k, r) => self.put_output(k, r),
        }
    }

    fn put_take(&mut self, r: u8, n: u32) -> Result<(), AllocError>
        requires right { IsRight self.old (Take r n) }
        ensures added { OnOk result (self.new ≡ with_instr self.old (Take r n)) }
        ensures same { OnErr result (self.new ≡ self.old) }
    {
        self.packed.reserve(1)?;
        self.packed.push_reserved(Packed::Take(r, n));
        self.written[r as usize] = true;
        Ok(())
    }

    fn put_lit(&mut self, r: u8, value: Value) -> Result<(), AllocError>
        requires few { length self.old.instrs < 4294967295 }
        requires right { IsRight self.old (Lit r value) }
        ensures added { OnOk result (self.new ≡ with_instr self.old (Lit r value)) }
        ensures same { OnErr result (self.new ≡ self.old) }
    {
        let at = self.pool.len() as u32;
        self.packed.reserve(1)?;
        self.pool.reserve(1)?;
        self.packed.push_reserved(Packed::Lit(r, at));
        self.pool.push_reserved(value);
        self.written[r as usize] = true;
        Ok(())
    }

    fn put_do(&mut self, op: Op, r: u8, a: u8, b: u8, c: u8) -> Result<(), AllocError>
        requires right { IsRight self.old (Do op r a b c) }
        ensures added { OnOk result (self.new ≡ with_instr self.old (Do op r a b c)) }
        ensures same { OnErr result (self.new ≡ self.old) }
    {
        self.packed.reserve(1)?;
        self.packed.push_reserved(Packed::Do(op, r, a, b, c));
        self.written[r as usize] = true;
        Ok(())
    }

    fn put_store(&mut self, k: u32, r: u8) -> Result<(), AllocError>
        requires few { length self.old.instrs < 4294967295 }
        requires right { IsRight self.old (Store k r) }
        ensures added { OnOk result (self.new ≡ with_instr self.old (Store k r)) }
        ensures same { OnErr result (self.new ≡ self.old) }
    {
        self.packed.reserve(1)?;
        let number = self.used.number(k)?;
        self.packed.push_reserved(Packed::Store(number, r));
        Ok(())
    }

    fn put_load(&mut self, r: u8, k: u32) -> Result<(), AllocError>
        requires right { IsRight self.old (Load r k) }
        ensures added { OnOk result (self.new ≡ with_instr self.old (Load r k)) }
        ensures same { OnErr result (self.new ≡ self.old) }
    {
        self.packed.reserve(1)?;
        match self.used.find(k) {
            Some(number) => {
                self.packed.push_reserved(Packed::Load(r, number));
                self.written[r as usize] = true;
                Ok(())
            }
            None => unreachable!(),
        }
    }

    fn put_check(&mut self, g: u8, c: u8, over_only: bool, label: u32) -> Result<(), AllocError>
        requires right { IsRight self.old (Check g c over_only label) }
        ensures added { OnOk result (self.new ≡ with_instr self.old (Check g c over_only label)) }
        ensures same { OnErr result (self.new ≡ self.old) }
    {
        self.packed.reserve(1)?;
        self.packed
            .push_reserved(Packed::Check(g, c, over_only, label));
        Ok(())
    }

    fn put_output(&mut self, k: u32, r: u8) -> Result<(), AllocError>
        requires right { IsRight self.old (Output k r) }
        ensures added { OnOk result (self.new ≡ with_instr self.old (Output k r)) }
        ensures same { OnErr result (self.new ≡ self.old) }
    {
        self.packed.reserve(1)?;
        self.given.insert(k)?;
        self.packed.push_reserved(Packed::Output(k, r));
        Ok(())
    }

    // Whether every output was set.
    fn is_whole(&self) -> bool
        ensures { (s : State) → reading self.now ≡ Some s → result ≡ is_some (all_given s.outputs) }
    {
        for k in 0..self.outputs {
            if !self.given.contains(&k) {
                return false;
            }
        }
        true
    }

    /// The code; none if an output was never set.
    pub fn finish(self) -> Option<Code>
        ensures { MatchOption result (code_fault self ≡ Some NoOutput) (λ code. (code ≡ self) × (code_fault self ≡ None)) }
    {
        if self.is_whole() {
            let slots = self.slots;
            Some(self.seal(slots))
        } else {
            None
        }
    }

    /// The code, with this number of slots. Every output must be set, and every slot that is used
    /// must be below the number.
    pub fn seal(self, slots: u32) -> Code
        requires { code_fault (with_slots self slots) ≡ None }
        ensures { result ≡ with_slots self slots }
    {
        let CodeBuilder {
            inputs,
            labels,
            outputs,
            packed,
            pool,
            used,
            ..
        } = self;
        Code {
            inputs,
            slots,
            labels,
            outputs,
            packed,
            pool,
            used: used.into_vec(),
        }
    }
}
