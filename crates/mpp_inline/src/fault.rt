//! Why a driver has no flat program.

ghost use Rattle.std.specs.Prelude.{◌≡◌};
ghost use Rattle.mpp_inline.specs.declared.fault.InlineFault.TheVariants.{Memory};

use std::alloc::{AllocError, AllocFailed};

/// Why a driver has no flat program.
#[derive(Debug, Drop)]
pub enum InlineFault {
    /// The weight of the driver, which is above 4,000,000. A weight of 2^64 or more is reported as
    /// 18,446,744,073,709,551,615.
    DriverTooLarge(u64),
    /// Out of memory.
    Memory,
}

impl From<AllocError> for InlineFault {
    ghost from_gives = { λ _ f. f ≡ Memory };

    fn from(_error: AllocError) -> InlineFault {
        InlineFault::Memory
    }
}

impl<T: Drop> From<AllocFailed<T>> for InlineFault {
    ghost from_gives = { λ _ f. f ≡ Memory };

    fn from(_error: AllocFailed<T>) -> InlineFault {
        InlineFault::Memory
    }
}
