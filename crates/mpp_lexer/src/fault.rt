ghost use Rattle.std.specs.Prelude.{◌≡◌};
ghost use Rattle.mpp_lexer.specs.declared.fault.DriverFault.TheVariants.{Memory};

use std::alloc::{AllocError, AllocFailed};

/// Why a driver doesn't parse, in this crate and in mpp_parser. Each number is a line's, from 1.
#[derive(Clone, Copy, Debug, PartialEq, Eq)]
pub enum DriverFault {
    /// The first line in which no token begins at some byte, or a number is too great.
    DriverToken(u32),
    /// No line has a bad token; this is the first whose nesting or whose open brackets exceed the
    /// limits.
    DriverTooDeep(u32),
    /// No line has either error; this is the first line after the longest prefix of the lines that
    /// is a driver.
    DriverSyntax(u32),
    /// Out of memory.
    Memory,
}

impl From<AllocError> for DriverFault {
    ghost from_gives = { λ _ f. f ≡ Memory };

    fn from(_e: AllocError) -> DriverFault {
        DriverFault::Memory
    }
}

impl<T: Drop> From<AllocFailed<T>> for DriverFault {
    ghost from_gives = { λ _ f. f ≡ Memory };

    fn from(_e: AllocFailed<T>) -> DriverFault {
        DriverFault::Memory
    }
}
