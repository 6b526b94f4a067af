//! Errors of reading a table of cases.

ghost use Rattle.std.specs.Prelude.{◌≡◌};
ghost use Rattle.m_cases.specs.Cases.{case_fault};
ghost use Rattle.m_cases.specs.declared.fault.CasesFault.TheVariants.{Memory};

use household::HouseholdFault;
use std::alloc::{AllocError, AllocFailed};

/// Why a table of cases is rejected. The number is that of a record, from 1.
#[derive(Clone, Copy, Debug, PartialEq, Eq)]
pub enum CasesFault {
    /// There is no record, or the first field isn't `name`.
    BadHeader,
    /// There are more rows than the limit of a table.
    TooManyRows,
    /// The record has a wrong number of fields or an invalid label.
    BadRow(u32),
    /// A field of the header is the code of no input.
    UnknownCode(u32),
    /// A field of the header is `=` and the name of no output.
    UnknownOutput(u32),
    /// An input or an output has a second column.
    CodeTwice(u32),
    /// A cell in the column of an input isn't an amount, or is out of range.
    BadAmount(u32),
    /// An amount isn't of its input's type.
    NotOfType(u32),
    /// A cell in the column of an output isn't an amount, `undefined`, `over` or `stop`.
    BadExpected(u32),
    /// Out of memory.
    Memory,
}

impl From<HouseholdFault> for CasesFault {
    ghost from_gives = { λ e f. f ≡ case_fault e };

    fn from(fault: HouseholdFault) -> CasesFault {
        match fault {
            HouseholdFault::BadHeader => CasesFault::BadHeader,
            HouseholdFault::TooManyRows => CasesFault::TooManyRows,
            HouseholdFault::BadRow(line) => CasesFault::BadRow(line),
            HouseholdFault::UnknownCode(line) => CasesFault::UnknownCode(line),
            HouseholdFault::BadAmount(line) => CasesFault::BadAmount(line),
            HouseholdFault::NotOfType(line) => CasesFault::NotOfType(line),
            HouseholdFault::CodeTwice(line) => CasesFault::CodeTwice(line),
            HouseholdFault::Memory => CasesFault::Memory,
        }
    }
}

impl From<AllocError> for CasesFault {
    ghost from_gives = { λ _ f. f ≡ Memory };

    fn from(_error: AllocError) -> CasesFault {
        CasesFault::Memory
    }
}

impl<T: Drop> From<AllocFailed<T>> for CasesFault {
    ghost from_gives = { λ _ f. f ≡ Memory };

    fn from(_error: AllocFailed<T>) -> CasesFault {
        CasesFault::Memory
    }
}
