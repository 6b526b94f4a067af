//! Why a report doesn't parse.

ghost use Rattle.std.specs.Prelude.{◌≡◌};
ghost use Rattle.why_report.specs.declared.fault.ReportFault.TheVariants.{Memory};

use std::alloc::{AllocError, AllocFailed};

/// Why a report doesn't parse.
#[derive(Clone, Copy, Debug, PartialEq, Eq)]
pub enum ReportFault {
    /// The number, from 1, of the first malformed line.
    BadLine(u32),
    /// Out of memory.
    Memory,
}

impl From<AllocError> for ReportFault {
    ghost from_gives = { λ _ f. f ≡ Memory };

    fn from(_error: AllocError) -> ReportFault {
        ReportFault::Memory
    }
}

impl<T: Drop> From<AllocFailed<T>> for ReportFault {
    ghost from_gives = { λ _ f. f ≡ Memory };

    fn from(_error: AllocFailed<T>) -> ReportFault {
        ReportFault::Memory
    }
}
