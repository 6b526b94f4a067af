ghost use Rattle.std.specs.Prelude.{◌≡◌};
ghost use Rattle.mpp_parser.specs.declared.unread.Unread.TheVariants.{Memory};

use std::alloc::{AllocError, AllocFailed};

/// Why a part of a line doesn't parse.
#[derive(Clone, Copy, Debug, PartialEq, Eq)]
pub enum Unread {
    /// The tokens don't spell the part.
    NotSpelled,
    /// Out of memory.
    Memory,
}

impl From<AllocError> for Unread {
    ghost from_gives = { λ _ e. e ≡ Memory };

    fn from(_e: AllocError) -> Unread {
        Unread::Memory
    }
}

impl<T: Drop> From<AllocFailed<T>> for Unread {
    ghost from_gives = { λ _ e. e ≡ Memory };

    fn from(_e: AllocFailed<T>) -> Unread {
        Unread::Memory
    }
}
