ghost use Rattle.std.specs.Prelude.{◌≡◌};
ghost use Rattle.m_names.specs.declared.fault.NamesFault.TheVariants.{Memory};

use std::alloc::{AllocError, AllocFailed};

/// Why names are rejected.
#[derive(Clone, Copy, Debug, PartialEq, Eq)]
pub enum NamesFault {
    /// A name occurs twice: the indexes of its first occurrence and of the repeat, from 0.
    Repeated(usize, usize),
    /// Out of memory.
    Memory,
}

impl From<AllocError> for NamesFault {
    ghost from_gives = { λ _ f. f ≡ Memory };

    fn from(_e: AllocError) -> NamesFault {
        NamesFault::Memory
    }
}

impl<T: Drop> From<AllocFailed<T>> for NamesFault {
    ghost from_gives = { λ _ f. f ≡ Memory };

    fn from(_e: AllocFailed<T>) -> NamesFault {
        NamesFault::Memory
    }
}
