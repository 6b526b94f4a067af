//! Register code as it is stored: 12 bytes for each instruction. Literals are in a pool, and the
//! used slots are numbered among themselves, so an instruction needs neither a value nor a large
//! slot number.
ghost use Rattle.std.specs.Prelude.{◌≡◌, ◌<◌, length, slice_index_or};
ghost use Rattle.reg_machine.specs.inner.Packed.{unpacked, IsUnder, AreParts};

use crate::instr::Instr;
use m_fixed::{Op, Value};
use std::marker::Model;

/// A stored instruction: a literal is a place in the pool, and a slot is a place in the list of
/// used slots.
#[derive(Clone, Copy)]
pub enum Packed {
    Take(u8, u32),
    Lit(u8, u32),
    Do(Op, u8, u8, u8, u8),
    Store(u32, u8),
    Load(u8, u32),
    Check(u8, u8, bool, u32),
    Output(u32, u8),
}

/// The stored parts of code: the instructions, the pool of literals, and the used slots.
#[derive(Clone, Copy)]
pub struct Parts<'a> {
    pub packed: &'a [Packed],
    pub pool: &'a [Value],
    pub used: &'a [u32],
}

/// Valid code: each number is below its count, each register and slot is written before it is read,
/// and each output is set once. `make_code` makes it. Contracts see its counts and its list of
/// instructions.
#[derive(Drop)]
pub struct Code {
    pub(crate) inputs: u32,
    pub(crate) slots: u32,
    pub(crate) labels: u32,
    pub(crate) outputs: u32,
    pub(crate) packed: Vec<Packed>,
    pub(crate) pool: Vec<Value>,
    pub(crate) used: Vec<u32>,
}

impl Model for Code {
    ghost use Rattle.std.specs.Prelude.{◌≡◌, None, length};
    ghost use Rattle.std.specs.List.{AllByRecursion};
    ghost use Rattle.reg_machine.specs.Flow.{Listing, code_fault};
    ghost use Rattle.reg_machine.specs.inner.Packed.{listing_of, IsPacked, AreDistinct};

    ghost Value = { Listing };

    ghost view = { λ c. listing_of c.inputs c.slots c.labels c.outputs c.pool.items c.used.items c.packed.items };

    ghost invariant = { λ c. (code_fault (listing_of c.inputs c.slots c.labels c.outputs c.pool.items c.used.items c.packed.items) ≡ None)
        × AllByRecursion (IsPacked c.inputs c.outputs (length c.pool.items) (length c.used.items)) c.packed.items
        × AreDistinct c.used.items };
}

/// The instruction, given the pool and the used slots.
fn unpacked(pool: &[Value], used: &[u32], packed: Packed) -> Instr
    requires { IsUnder (length pool.now) (length used.now) packed }
    ensures { result ≡ unpacked pool.now used.now packed }
{
    match packed {
        Packed::Take(r, n) => Instr::Take(r, n),
        Packed::Lit(r, at) => Instr::Lit(r, pool[at as usize]),
        Packed::Do(op, r, a, b, c) => Instr::Do(op, r, a, b, c),
        Packed::Store(k, r) => Instr::Store(used[k as usize], r),
        Packed::Load(r, k) => Instr::Load(r, used[k as usize]),
        Packed::Check(g, c, over_only, label) => Instr::Check(g, c, over_only, label),
        Packed::Output(k, r) => Instr::Output(k, r),
    }
}

impl Code {
    /// The number of instructions. Takes no memory.
    pub fn len(&self) -> usize
        ensures { result ≡ length self.now.instrs }
    {
        self.packed.len()
    }

    /// The instruction at a place, from 0. Takes no memory.
    pub fn instr(&self, place: usize) -> Instr
        requires { place < length self.now.instrs }
        ensures { result ≡ slice_index_or self.now.instrs place result }
    {
        unpacked(&self.pool, &self.used, self.packed[place])
    }

    /// The stored parts, for another machine. Takes no memory.
    pub fn parts(&self) -> Parts<'_>
        ensures { AreParts self.now result }
    {
        Parts {
            packed: self.packed.as_slice(),
            pool: self.pool.as_slice(),
            used: self.used.as_slice(),
        }
    }

    /// The number of inputs.
    pub fn inputs(&self) -> u32
        ensures { result ≡ self.now.counts.inputs }
    {
        self.inputs
    }

    /// The number of slots. Only used slots take memory.
    pub fn slots(&self) -> u32
        ensures { result ≡ self.now.counts.slots }
    {
        self.slots
    }

    /// The number of labels.
    pub fn labels(&self) -> u32
        ensures { result ≡ self.now.counts.labels }
    {
        self.labels
    }

    /// The number of outputs.
    pub fn outputs(&self) -> u32
        ensures { result ≡ self.now.counts.outputs }
    {
        self.outputs
    }
}
