//! Errors of reading a code file.
ghost use Rattle.std.specs.Prelude.{◌≡◌};
ghost use Rattle.code_file.specs.declared.fault.CodeFault.TheVariants.{Memory};

use std::alloc::{AllocError, AllocFailed};

/// Why bytes aren't a code file. Lines are counted from 1.
#[derive(Clone, Copy, Debug, PartialEq, Eq)]
pub enum CodeFault {
    /// The first line isn't `mcode 1`, or there is none.
    BadHeader,
    /// This line is malformed or isn't allowed here: its form isn't the next one of the format, a
    /// number is out of range, an input's code was used before, or it is `end` while an output has
    /// no value. If the file ends early, the number is that of the line after the last one.
    BadLine(u32),
    /// This line reads a register or a slot that no earlier line has written.
    BadOrder(u32),
    /// Out of memory.
    Memory,
}

impl From<AllocError> for CodeFault {
    ghost from_gives = { λ _ f. f ≡ Memory };

    fn from(_error: AllocError) -> CodeFault {
        CodeFault::Memory
    }
}

impl<T: Drop> From<AllocFailed<T>> for CodeFault {
    ghost from_gives = { λ _ f. f ≡ Memory };

    fn from(_error: AllocFailed<T>) -> CodeFault {
        CodeFault::Memory
    }
}
