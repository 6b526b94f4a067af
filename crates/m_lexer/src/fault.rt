//! Lexical errors.

ghost use Rattle.std.specs.Prelude.{◌≡◌};
ghost use Rattle.m_lexer.specs.declared.fault.LexFault.TheVariants.{Memory};

use m_places::Place;
use std::alloc::{AllocError, AllocFailed};

/// Why a file has no tokens: its first error.
#[derive(Clone, Copy, Debug, PartialEq, Eq)]
pub enum LexFault {
    /// A byte at which no token begins.
    BadByte(Place),
    /// The opening quote of a text that isn't closed.
    OpenString(Place),
    /// A number above 10000000000000 after rounding at the sixth decimal.
    NumberTooGreat(Place),
    /// Out of memory.
    Memory,
}

impl From<AllocError> for LexFault {
    ghost from_gives = { λ _ f. f ≡ Memory };

    fn from(_e: AllocError) -> LexFault {
        LexFault::Memory
    }
}

impl<T: Drop> From<AllocFailed<T>> for LexFault {
    ghost from_gives = { λ _ f. f ≡ Memory };

    fn from(_e: AllocFailed<T>) -> LexFault {
        LexFault::Memory
    }
}
