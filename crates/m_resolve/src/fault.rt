//! Errors of name resolution.

ghost use Rattle.std.specs.Prelude.{◌≡◌};
ghost use Rattle.m_resolve.specs.declared.fault.ResolveFault.TheVariants.{Memory};

use m_places::{Name, Place};
use std::alloc::{AllocError, AllocFailed};

/// The first name that can't be resolved, and its place. Definitions are resolved before
/// conditions, and in a definition the target before the term.
#[derive(Drop)]
pub enum ResolveFault {
    /// No variable has the name. `X` outside of a formula for all cells is such a name.
    UnknownName(Name, Place),
    /// The name of a variable that isn't a table has an index.
    NotATable(Name, Place),
    /// The name of a table has no index.
    IsATable(Name, Place),
    /// The target is an input, a constant, or a cell that its table doesn't have. The name is the
    /// target's word without the index.
    BadTarget(Name, Place),
    /// An earlier definition defines the same cell. The name is the cell's printed name.
    DefinedTwice(Name, Place),
    /// The first word after `erreur` is not the name of an error. The place is that of the check's
    /// `si`.
    UnknownError(Name, Place),
    /// Out of memory.
    Memory,
}

impl From<AllocError> for ResolveFault {
    ghost from_gives = { λ _ f. f ≡ Memory };

    fn from(_error: AllocError) -> ResolveFault {
        ResolveFault::Memory
    }
}

impl<T: Drop> From<AllocFailed<T>> for ResolveFault {
    ghost from_gives = { λ _ f. f ≡ Memory };

    fn from(_error: AllocFailed<T>) -> ResolveFault {
        ResolveFault::Memory
    }
}
