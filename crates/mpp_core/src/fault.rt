//! Why a driver is rejected.

ghost use Rattle.std.specs.Prelude.{◌≡◌};
ghost use Rattle.mpp_core.specs.declared.fault.CoreFault.TheVariants.{Memory};

use m_places::{Name, Seq};
use std::alloc::{AllocError, AllocFailed};

/// Why a driver is rejected. Line numbers are from 1, and a name is a word without an index.
#[derive(Drop)]
pub enum CoreFault {
    /// The first line that defines a function under the name of an earlier one, or under the name
    /// `call_m`.
    FunctionTwice(Name, u32),
    /// No function has the name `main`.
    NoMain,
    /// The name doesn't resolve: not to a variable, or to a table with an index below its size, or
    /// to a function.
    UnknownInDriver(Name, u32),
    /// A constant is assigned, deleted or received.
    BadTargetInDriver(Name, u32),
    /// A cycle of calls: distinct functions, each calling the next and the last the first,
    /// beginning with the one that is first in the file.
    DriverRecursion(Seq<Name>),
    /// Out of memory.
    Memory,
}

impl From<AllocError> for CoreFault {
    ghost from_gives = { λ _ f. f ≡ Memory };

    fn from(_error: AllocError) -> CoreFault {
        CoreFault::Memory
    }
}

impl<T: Drop> From<AllocFailed<T>> for CoreFault {
    ghost from_gives = { λ _ f. f ≡ Memory };

    fn from(_error: AllocFailed<T>) -> CoreFault {
        CoreFault::Memory
    }
}
