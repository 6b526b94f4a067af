//! Errors of requests.

ghost use Rattle.std.specs.Prelude.{◌≡◌};
ghost use Rattle.m_symbols.specs.declared.request_fault.RequestFault.TheVariants.{Memory};

use std::alloc::{AllocError, AllocFailed};

/// Why requests are rejected.
#[derive(Clone, Copy, Debug, PartialEq, Eq)]
pub enum RequestFault {
    /// The first line that names no cell, by its number from 1.
    BadRequest(u32),
    /// Every line names a cell, and there are more requests than allowed.
    TooManyRequests,
    /// Out of memory.
    Memory,
}

impl From<AllocError> for RequestFault {
    ghost from_gives = { λ _ f. f ≡ Memory };

    fn from(_error: AllocError) -> RequestFault {
        RequestFault::Memory
    }
}

impl<T: Drop> From<AllocFailed<T>> for RequestFault {
    ghost from_gives = { λ _ f. f ≡ Memory };

    fn from(_error: AllocFailed<T>) -> RequestFault {
        RequestFault::Memory
    }
}
