ghost use Rattle.std.specs.Prelude.{◌≡◌};
ghost use Rattle.m_items.specs.declared.fault.ParseFault.TheVariants.{Memory};

use m_places::Place;
use std::alloc::{AllocError, AllocFailed};

/// Why the tokens don't parse as items.
#[derive(Clone, Copy, Debug, PartialEq, Eq)]
pub enum ParseFault {
    /// At this token, brackets and conditionals are nested more than 256 deep.
    TooDeep(Place),
    /// This token follows the longest prefix of the tokens that parses as items.
    Syntax(Place),
    /// Out of memory.
    Memory,
}

impl From<AllocError> for ParseFault {
    ghost from_gives = { λ _ e. e ≡ Memory };

    fn from(_error: AllocError) -> ParseFault {
        ParseFault::Memory
    }
}

impl<T: Drop> From<AllocFailed<T>> for ParseFault {
    ghost from_gives = { λ _ e. e ≡ Memory };

    fn from(_error: AllocFailed<T>) -> ParseFault {
        ParseFault::Memory
    }
}
