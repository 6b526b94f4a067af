//! The errors of a list file.

ghost use Rattle.std.specs.Prelude.{◌≡◌};
ghost use Rattle.command_plans.specs.declared.list_fault.ListFault.TheVariants.{Memory};

use std::alloc::{AllocError, AllocFailed};

/// Why a list file is rejected.
#[derive(Clone, Copy, Debug, PartialEq, Eq)]
pub enum ListFault {
    /// The first malformed line, counted from 1: line 1 isn't an application, or a later one isn't a file name.
    BadLine(u32),
    /// All lines are well formed, and there are more files than the limit.
    TooManyFiles,
    /// Out of memory.
    Memory,
}

impl From<AllocError> for ListFault {
    ghost from_gives = { λ _ e. e ≡ Memory };

    fn from(_e: AllocError) -> ListFault {
        ListFault::Memory
    }
}

impl<T: Drop> From<AllocFailed<T>> for ListFault {
    ghost from_gives = { λ _ e. e ≡ Memory };

    fn from(_e: AllocFailed<T>) -> ListFault {
        ListFault::Memory
    }
}
