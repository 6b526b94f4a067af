//! Errors of printing rows.
ghost use Rattle.std.specs.Prelude.{◌≡◌};
ghost use Rattle.m_batch.specs.declared.fault.PrintFault.TheVariants.{Memory as NoMemory, Failed as NotWritten};

use m_ports::Failed;
use std::alloc::AllocError;

/// Why not all rows were printed.
#[derive(Clone, Copy, Debug, PartialEq, Eq)]
pub enum PrintFault {
    /// Out of memory.
    Memory,
    /// A write failed.
    Failed,
}

impl From<AllocError> for PrintFault {
    ghost from_gives = { λ _ f. f ≡ NoMemory };

    fn from(_error: AllocError) -> PrintFault {
        PrintFault::Memory
    }
}

impl From<Failed> for PrintFault {
    ghost from_gives = { λ _ f. f ≡ NotWritten };

    fn from(_failed: Failed) -> PrintFault {
        PrintFault::Failed
    }
}
