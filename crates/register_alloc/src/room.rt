//! The state of the allocator: registers, slots and the code so far.

ghost use Rattle.std.specs.Prelude.{◌≡◌, ℕ, suc, ◌+◌, ◌-◌, ◌<◌, ◌≤◌, ◌==◌, ◌&&◌, length, IfSome, IfNone, IfOk, OnOk, Some, None, true, false, List, Option};
ghost use Rattle.flat_code.specs.Entries.{node_at};
ghost use Rattle.flat_code.specs.Tidy.{IsNormal};
ghost use Rattle.reg_machine.specs.Flow.{loads_of};
ghost use Rattle.register_alloc.specs.Width.{reads, width_of, reads_by, one_if};
ghost use Rattle.register_alloc.specs.inner.Tables.{look, is_live, is_busy};
ghost use Rattle.register_alloc.specs.inner.Valid.{IsValid};
ghost use Rattle.register_alloc.specs.inner.Sound.{IsSound, IsSoundWith, live_at, AllBusy, IsKept, IsSpare, IsSettled, IsShort};
ghost use Rattle.register_alloc.specs.inner.Sound.{HasSources, instr_of, given_before, nodes_read, count_given};

use crate::clear::clear_arguments;
use crate::moment::Moment;
use crate::slots::Slots;
use crate::sources::{Sources, instr_of, other_than};
use crate::table::find;
use crate::task::Task;
use flat_code::Node;
use m_fixed::arity;
use reg_machine::{CodeBuilder, Instr, REGISTERS};
use std::alloc::AllocError;

/// The code so far, and the node that each register and each slot holds.
#[derive(Drop)]
pub struct Room {
    pub code: CodeBuilder,
    pub registers: [Option<usize>; REGISTERS as usize],
    pub slots: Slots,
}

/// Whether an entry is a live node.
fn is_busy(flat: &Task, at: Moment, entry: Option<usize>) -> bool
    requires { at.made ≤ length flat.now.nodes }
    ensures { result ≡ is_busy (live_at flat.now at) entry }
{
    match entry {
        Some(x) => flat.is_live(at, x),
        None => false,
    }
}

impl Room {
    /// A register that holds no live node, if there is one.
    fn idle(&self, flat: &Task, at: Moment) -> Option<u8>
        requires { at.made ≤ length flat.now.nodes }
        ensures within { IfSome result (λ k. k < REGISTERS) }
        ensures found { IfSome result (λ k. is_busy (live_at flat.now at) (look self.now.registers k) ≡ false) }
        ensures absent { IfNone result (AllBusy flat.now at self.now) }
    {
        for i in 0..REGISTERS {
            if !is_busy(flat, at, self.registers[i as usize]) {
                return Some(i);
            }
        }
        None
    }

    /// One more than the last node that reads the node of a register, or 0.
    fn last_read(&self, flat: &Task, register: u8) -> usize
        requires { register < REGISTERS }
    {
        match self.registers[register as usize] {
            Some(x) => flat.last_read(x),
            None => 0,
        }
    }

    /// The register to spill, other than these two: the one whose node has the latest last read,
    /// since the others are free earlier.
    fn victim(&self, flat: &Task, one: u8, two: u8) -> u8
        ensures within { result < REGISTERS }
        ensures one { result ≡ one → ⊥ }
        ensures two { result ≡ two → ⊥ }
    {
        let mut latest = other_than(one, two);
        for i in 0..REGISTERS {
            if i != one && i != two && self.last_read(flat, i) > self.last_read(flat, latest) {
                latest = i;
            }
        }
        latest
    }

    /// Stores the node of a register to a slot, unless it is in one.
    fn spill(&mut self, flat: &Task, at: Moment, register: u8) -> Result<(), AllocError>
        requires sound { IsSound flat.now at self.old }
        requires within { register < REGISTERS }
        requires busy { is_busy (live_at flat.now at) (look self.old.registers register) ≡ true }
        requires crowded { REGISTERS < width_of flat.now }
        requires few { length self.old.code.instrs + 1 < 4294967295 }
        ensures sound { OnOk result (IsSound flat.now at self.new) }
        ensures spare { OnOk result (IsSpare flat.now at self.new register) }
        ensures registers { self.new.registers ≡ self.old.registers }
        ensures counts { OnOk result (self.new.code.counts ≡ self.old.code.counts) }
        ensures len { OnOk result (length self.new.code.instrs ≤ length self.old.code.instrs + 1) }
        ensures loads { OnOk result ((y : ℕ) → loads_of y self.new.code ≡ loads_of y self.old.code) }
    {
        let Some(x) = self.registers[register as usize] else {
            unreachable!()
        };
        match self.slots.find(x) {
            Some(_) => Ok(()),
            None => {
                let slot = self.slots.occupy(x)?;
                self.code.add(Instr::Store(slot as u32, register))?;
                Ok(())
            }
        }
    }

    /// A register that may be overwritten, other than these two. Its node is spilled if no register
    /// is free.
    fn vacate(&mut self, flat: &Task, at: Moment, one: u8, two: u8) -> Result<u8, AllocError>
        requires sound { IsSound flat.now at self.old }
        requires one { IsKept flat.now at self.old one }
        requires two { IsKept flat.now at self.old two }
        requires crowded { AllBusy flat.now at self.old → REGISTERS < width_of flat.now }
        requires few { length self.old.code.instrs + 1 < 4294967295 }
        ensures sound { OnOk result (IsSound flat.now at self.new) }
        ensures within { IfOk result (λ k. k < REGISTERS) }
        ensures spare { IfOk result (IsSpare flat.now at self.new) }
        ensures one { IfOk result (λ k. k ≡ one → ⊥) }
        ensures two { IfOk result (λ k. k ≡ two → ⊥) }
        ensures registers { self.new.registers ≡ self.old.registers }
        ensures counts { OnOk result (self.new.code.counts ≡ self.old.code.counts) }
        ensures len { OnOk result (length self.new.code.instrs ≤ length self.old.code.instrs + 1) }
        ensures loads { OnOk result ((y : ℕ) → loads_of y self.new.code ≡ loads_of y self.old.code) }
    {
        match self.idle(flat, at) {
            Some(register) => Ok(register),
            None => {
                let register = self.victim(flat, one, two);
                self.spill(flat, at, register)?;
                Ok(register)
            }
        }
    }

    /// Loads a live node that is in no register into a register other than these two.
    fn load(
        &mut self,
        flat: &Task,
        at: Moment,
        x: usize,
        one: u8,
        two: u8,
    ) -> Result<u8, AllocError>
        requires sound { IsSound flat.now at self.old }
        requires live { live_at flat.now at x ≡ true }
        requires away { (k : ℕ) → look self.old.registers k ≡ Some x → ⊥ }
        requires one { IsKept flat.now at self.old one }
        requires two { IsKept flat.now at self.old two }
        requires few { length self.old.code.instrs + 2 < 4294967295 }
        ensures sound { OnOk result (IsSound flat.now at self.new) }
        ensures here { IfOk result (λ k. look self.new.registers k ≡ Some x) }
        ensures within { IfOk result (λ k. k < REGISTERS) }
        ensures one { OnOk result (look self.new.registers one ≡ look self.old.registers one) }
        ensures two { OnOk result (look self.new.registers two ≡ look self.old.registers two) }
        ensures counts { OnOk result (self.new.code.counts ≡ self.old.code.counts) }
        ensures len { OnOk result (length self.new.code.instrs ≤ length self.old.code.instrs + 2) }
        ensures loads { OnOk result ((y : ℕ) → loads_of y self.new.code ≤ loads_of y self.old.code + one_if (x == y)) }
    {
        let register = self.vacate(flat, at, one, two)?;
        match self.slots.find(x) {
            Some(slot) => {
                self.code.add(Instr::Load(register, slot as u32))?;
                self.registers[register as usize] = Some(x);
                Ok(register)
            }
            None => unreachable!(),
        }
    }

    /// The register of a live node. If the node is in none, it is loaded into a register other than
    /// these two.
    pub(crate) fn fetch(
        &mut self,
        flat: &Task,
        at: Moment,
        x: usize,
        one: u8,
        two: u8,
    ) -> Result<u8, AllocError>
        requires sound { IsSound flat.now at self.old }
        requires live { live_at flat.now at x ≡ true }
        requires one { IsKept flat.now at self.old one }
        requires two { IsKept flat.now at self.old two }
        requires few { length self.old.code.instrs + 2 < 4294967295 }
        ensures sound { OnOk result (IsSound flat.now at self.new) }
        ensures here { IfOk result (λ k. look self.new.registers k ≡ Some x) }
        ensures within { IfOk result (λ k. k < REGISTERS) }
        ensures one { OnOk result (look self.new.registers one ≡ look self.old.registers one) }
        ensures two { OnOk result (look self.new.registers two ≡ look self.old.registers two) }
        ensures counts { OnOk result (self.new.code.counts ≡ self.old.code.counts) }
        ensures len { OnOk result (length self.new.code.instrs ≤ length self.old.code.instrs + 2) }
        ensures loads { OnOk result ((y : ℕ) → loads_of y self.new.code ≤ loads_of y self.old.code + one_if (x == y)) }
    {
        match find(&self.registers, x) {
            Some(register) => Ok(register),
            None => self.load(flat, at, x, one, two),
        }
    }

    /// The same if `wanted`, otherwise `one`.
    fn fetch_if(
        &mut self,
        flat: &Task,
        at: Moment,
        wanted: bool,
        x: usize,
        one: u8,
        two: u8,
    ) -> Result<u8, AllocError>
        requires sound { IsSound flat.now at self.old }
        requires live { live_at flat.now at x ≡ true }
        requires one { IsKept flat.now at self.old one }
        requires two { IsKept flat.now at self.old two }
        requires within { one < REGISTERS }
        requires unwanted { wanted ≡ false → look self.old.registers one ≡ Some x }
        requires few { length self.old.code.instrs + 2 < 4294967295 }
        ensures sound { OnOk result (IsSound flat.now at self.new) }
        ensures here { IfOk result (λ k. look self.new.registers k ≡ Some x) }
        ensures within { IfOk result (λ k. k < REGISTERS) }
        ensures unwanted { IfOk result (λ k. wanted ≡ false → k ≡ one) }
        ensures one { OnOk result (look self.new.registers one ≡ look self.old.registers one) }
        ensures two { OnOk result (look self.new.registers two ≡ look self.old.registers two) }
        ensures counts { OnOk result (self.new.code.counts ≡ self.old.code.counts) }
        ensures len { OnOk result (length self.new.code.instrs ≤ length self.old.code.instrs + 2) }
        ensures loads { OnOk result ((y : ℕ) → loads_of y self.new.code ≤ loads_of y self.old.code + one_if (wanted && (x == y))) }
    {
        if wanted {
            self.fetch(flat, at, x, one, two)
        } else {
            Ok(one)
        }
    }

    /// The registers of a node's arguments, which are loaded if necessary.
    fn sources(&mut self, flat: &Task, at: Moment, node: Node) -> Result<Sources, AllocError>
        requires sound { IsSound flat.now at self.old }
        requires live { (x : ℕ) → reads x node ≡ true → live_at flat.now at x ≡ true }
        requires normal { IsNormal node }
        requires few { length self.old.code.instrs + 6 < 4294967295 }
        ensures sound { OnOk result (IsSound flat.now at self.new) }
        ensures here { IfOk result (HasSources (look self.new.registers) node) }
        ensures counts { OnOk result (self.new.code.counts ≡ self.old.code.counts) }
        ensures len { OnOk result (length self.new.code.instrs ≤ length self.old.code.instrs + 6) }
        ensures loads { OnOk result ((y : ℕ) → loads_of y self.new.code ≤ loads_of y self.old.code + reads_by y node) }
    {
        match node {
            Node::Input(_) | Node::Lit(_) => Ok(Sources {
                first: 0,
                second: 0,
                third: 0,
            }),
            Node::Do(op, a, b, c) => {
                let first = self.fetch(flat, at, a as usize, REGISTERS, REGISTERS)?;
                let second = self.fetch_if(flat, at, arity(op) > 1, b as usize, first, REGISTERS)?;
                let third = self.fetch_if(flat, at, arity(op) > 2, c as usize, first, second)?;
                Ok(Sources {
                    first,
                    second,
                    third,
                })
            }
        }
    }

    /// Notes that the arguments of the next node are read, and frees the slots of those that are
    /// now dead.
    fn pass(&mut self, flat: &Task, at: Moment, node: Node) -> Result<Moment, AllocError>
        requires sound { IsSound flat.now at self.old }
        requires next { at.read < length flat.now.nodes }
        requires node { node ≡ node_at flat.now.nodes at.read }
        requires settled { IsSettled flat.now at.read at.checked }
        ensures sound { IfOk result (λ next. IsSound flat.now next self.new) }
        ensures next { IfOk result (λ next. next ≡ record at { read = suc at.read }) }
        ensures registers { self.new.registers ≡ self.old.registers }
        ensures code { OnOk result (self.new.code ≡ self.old.code) }
    {
        let next = Moment {
            made: at.made,
            read: at.read + 1,
            checked: at.checked,
        };
        clear_arguments(&mut self.slots, flat, next, node)?;
        Ok(next)
    }

    /// Emits the instruction of the next node, into this register.
    fn make(
        &mut self,
        flat: &Task,
        at: Moment,
        node: Node,
        register: u8,
        sources: Sources,
    ) -> Result<(), AllocError>
        requires sound { IsSound flat.now at self.old }
        requires next { at.made < at.read }
        requires node { node ≡ node_at flat.now.nodes at.made }
        requires sources { HasSources (look self.old.registers) node sources }
        requires spare { IsSpare flat.now at self.old register }
        requires few { length self.old.code.instrs + 1 < 4294967295 }
        ensures sound { OnOk result (IsSoundWith flat.now (record at { made = at.made + 1 }) (given_before at.made flat.now.outputs) self.new) }
        ensures here { OnOk result (look self.new.registers register ≡ Some at.made) }
        ensures counts { OnOk result (self.new.code.counts ≡ self.old.code.counts) }
        ensures len { OnOk result (length self.new.code.instrs ≤ length self.old.code.instrs + 1) }
        ensures loads { OnOk result ((y : ℕ) → loads_of y self.new.code ≡ loads_of y self.old.code) }
    {
        self.code.add(instr_of(node, register, sources))?;
        self.registers[register as usize] = Some(at.made);
        Ok(())
    }

    /// Emits the outputs of the node in this register.
    fn give(&mut self, flat: &Task, at: Moment, node: usize, register: u8) -> Result<(), AllocError>
        requires sound { IsSoundWith flat.now at (given_before node flat.now.outputs) self.old }
        requires made { at.made ≡ suc node }
        requires here { look self.old.registers register ≡ Some node }
        requires within { register < REGISTERS }
        requires few { length self.old.code.instrs + length flat.now.outputs < 4294967295 }
        ensures sound { OnOk result (IsSound flat.now at self.new) }
        ensures counts { OnOk result (self.new.code.counts ≡ self.old.code.counts) }
        ensures len { OnOk result (length self.new.code.instrs + count_given node flat.now.outputs
            ≤ length self.old.code.instrs + count_given at.made flat.now.outputs) }
        ensures loads { OnOk result ((y : ℕ) → loads_of y self.new.code ≡ loads_of y self.old.code) }
    {
        let mut output = flat.first_output(node);
        while output < flat.outputs() {
            self.code.add(Instr::Output(output as u32, register))?;
            output = flat.next_output(output);
        }
        Ok(())
    }

    /// Processes the next node: its arguments, its instruction and its outputs.
    pub fn turn(&mut self, flat: &Task, at: Moment) -> Result<Moment, AllocError>
        requires valid { IsValid flat.now }
        requires sound { IsSound flat.now at self.old }
        requires next { at.made < length flat.now.nodes }
        requires even { at.read ≡ at.made }
        requires settled { IsSettled flat.now at.made at.checked }
        requires short { IsShort flat.now at self.old.code.instrs }
        ensures sound { IfOk result (λ next. IsSound flat.now next self.new) }
        ensures next { IfOk result (λ next. next ≡ record { made = suc at.made; read = suc at.read; checked = at.checked }) }
        ensures counts { OnOk result (self.new.code.counts ≡ self.old.code.counts) }
        ensures short { IfOk result (λ next. IsShort flat.now next self.new.code.instrs) }
        ensures loads { OnOk result ((y : ℕ) → loads_of y self.new.code + nodes_read flat.now at.made y
            ≤ loads_of y self.old.code + nodes_read flat.now (suc at.made) y) }
    {
        let sources = self.sources(flat, at, flat.node_at(at.made))?;
        let passed = self.pass(flat, at, flat.node_at(at.made))?;
        let register = self.vacate(flat, passed, REGISTERS, REGISTERS)?;
        self.make(flat, passed, flat.node_at(at.made), register, sources)?;
        let next = Moment {
            made: passed.made + 1,
            read: passed.read,
            checked: passed.checked,
        };
        self.give(flat, next, passed.made, register)?;
        Ok(next)
    }
}
