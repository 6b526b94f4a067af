use m_fixed::{Op, Value};

/// The number of registers, which are numbered 0 to 15.
pub const REGISTERS: u8 = 16;

/// An instruction. Its first operand is the register, slot or output that it writes. `Check` writes
/// none.
#[derive(Clone, Copy, Debug, PartialEq, Eq)]
pub enum Instr {
    /// `Take(r, n)`: sets register r to input n.
    Take(u8, u32),
    /// `Lit(r, v)`: sets register r to v.
    Lit(u8, Value),
    /// `Do(op, r, a, b, c)`: sets register r to the operator applied to registers a, b and c.
    /// Arguments past its arity must be a.
    Do(Op, u8, u8, u8, u8),
    /// `Store(k, r)`: sets slot k to register r.
    Store(u32, u8),
    /// `Load(r, k)`: sets register r to slot k.
    Load(u8, u32),
    /// `Check(g, c, over_only, label)`: stops the run if register g is the number 1, and register c
    /// is `Over` or, unless `over_only`, a number other than 0.
    Check(u8, u8, bool, u32),
    /// `Output(k, r)`: sets output k to register r.
    Output(u32, u8),
}
