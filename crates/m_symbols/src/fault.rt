ghost use Rattle.std.specs.Prelude.{◌≡◌};
ghost use Rattle.m_symbols.specs.declared.fault.DeclareFault.TheVariants.{Memory};

use m_places::{Name, Place};
use std::alloc::{AllocError, AllocFailed};

/// Why declarations are rejected. The last place of each variant is that of the wrong declaration.
#[derive(Drop)]
pub enum DeclareFault {
    /// The name of a variable or an error is declared twice: the name, and the earlier place.
    DeclaredTwice(Name, Place, Place),
    /// The code of an input is declared twice: the code, and the earlier place.
    AliasTwice(Name, Place, Place),
    /// A table without cells, or with more than a table may have.
    TableSize(Place),
    /// This variable's cells exceed the maximum of a base.
    TooManyCells(Place),
    /// Out of memory.
    Memory,
}

impl From<AllocError> for DeclareFault {
    ghost from_gives = { λ _ f. f ≡ Memory };

    fn from(_e: AllocError) -> DeclareFault {
        DeclareFault::Memory
    }
}

impl<T: Drop> From<AllocFailed<T>> for DeclareFault {
    ghost from_gives = { λ _ f. f ≡ Memory };

    fn from(_e: AllocFailed<T>) -> DeclareFault {
        DeclareFault::Memory
    }
}
