ghost use Rattle.std.specs.Prelude.{◌≡◌};
ghost use Rattle.m_terms.specs.declared.fault.TermFault.TheVariants.{Memory};

use std::alloc::{AllocError, AllocFailed};

/// Why no term, or no header, was read.
#[derive(Clone, Copy, Debug, PartialEq, Eq)]
pub enum TermFault {
    /// The tokens don't parse as one.
    NoTerm,
    /// Out of memory.
    Memory,
}

impl From<AllocError> for TermFault {
    ghost from_gives = { λ _ e. e ≡ Memory };

    fn from(_error: AllocError) -> TermFault {
        TermFault::Memory
    }
}

impl<T: Drop> From<AllocFailed<T>> for TermFault {
    ghost from_gives = { λ _ e. e ≡ Memory };

    fn from(_error: AllocFailed<T>) -> TermFault {
        TermFault::Memory
    }
}
