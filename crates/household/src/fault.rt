ghost use Rattle.std.specs.Prelude.{◌≡◌};
ghost use Rattle.household.specs.declared.fault.HouseholdFault.TheVariants.{Memory};

use std::alloc::{AllocError, AllocFailed};

/// Why a household or a table is rejected. A number is that of a record of the file, from 1; blank
/// lines are no records. The first faulty record is reported.
#[derive(Clone, Copy, Debug, PartialEq, Eq)]
pub enum HouseholdFault {
    /// There is no record, or the first isn't `code,amount`; in a table, its first field isn't
    /// `name`.
    BadHeader,
    /// There are more rows than the limit of a household or a table.
    TooManyRows,
    /// The record has a wrong number of fields, or in a table a label that is empty or has a byte
    /// below 32.
    BadRow(u32),
    /// No input has this code.
    UnknownCode(u32),
    /// A field isn't an amount, or is out of range.
    BadAmount(u32),
    /// The amount isn't of the type of its input. In a table, bad amounts of the same record are
    /// reported before this.
    NotOfType(u32),
    /// The code was used in an earlier record of the household, or in an earlier column of the
    /// table.
    CodeTwice(u32),
    /// Out of memory.
    Memory,
}

impl From<AllocError> for HouseholdFault {
    ghost from_gives = { λ _ e. e ≡ Memory };

    fn from(_e: AllocError) -> HouseholdFault {
        HouseholdFault::Memory
    }
}

impl<T: Drop> From<AllocFailed<T>> for HouseholdFault {
    ghost from_gives = { λ _ e. e ≡ Memory };

    fn from(_e: AllocFailed<T>) -> HouseholdFault {
        HouseholdFault::Memory
    }
}
