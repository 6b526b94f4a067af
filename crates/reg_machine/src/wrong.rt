//! Errors of code.
ghost use Rattle.std.specs.Prelude.{◌≡◌};
ghost use Rattle.reg_machine.specs.declared.wrong.CodeWrong.TheVariants.{Memory};

use std::alloc::{AllocError, AllocFailed};

/// The error of an instruction appended to valid code.
#[derive(Clone, Copy, Debug, PartialEq, Eq)]
pub enum Wrong {
    /// A number of the instruction is invalid.
    Number,
    /// The numbers are valid, but the instruction reads a register or a slot that wasn't written.
    Order,
}

/// Why a list of instructions isn't code. Places are counted from 0.
#[derive(Clone, Copy, Debug, PartialEq, Eq)]
pub enum CodeWrong {
    /// The instruction at this place has a register above 15; an input, slot, label or output that
    /// isn't below its count; an argument past the operator's arity that isn't the first; or an
    /// output that was set before.
    BadNumber(u32),
    /// The instruction at this place reads a register or a slot that no earlier one wrote. The
    /// first wrong instruction is reported, and at one instruction `BadNumber` takes precedence.
    BadOrder(u32),
    /// All instructions are valid, but an output is never set.
    NoOutput,
    /// Out of memory.
    Memory,
}

impl From<AllocError> for CodeWrong {
    ghost from_gives = { λ _ e. e ≡ Memory };

    fn from(_error: AllocError) -> CodeWrong {
        CodeWrong::Memory
    }
}

impl<T: Drop> From<AllocFailed<T>> for CodeWrong {
    ghost from_gives = { λ _ e. e ≡ Memory };

    fn from(_error: AllocFailed<T>) -> CodeWrong {
        CodeWrong::Memory
    }
}
