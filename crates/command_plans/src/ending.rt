ghost use Rattle.std.specs.Prelude.{◌≡◌};
ghost use Rattle.command_plans.specs.declared.ending.Ending.TheVariants.{Memory};

use crate::Refusal;
use m_places::Name;
use std::alloc::{AllocError, AllocFailed};

/// What ends a command before its files are gathered.
#[derive(Drop)]
pub enum Ending {
    /// The input is rejected.
    Refused(Refusal),
    /// The file of this name can't be read.
    Unreadable(Name),
    /// Out of memory.
    Memory,
}

impl From<AllocError> for Ending {
    ghost from_gives = { λ _ e. e ≡ Memory };

    fn from(_: AllocError) -> Self {
        Ending::Memory
    }
}

impl<T: Drop> From<AllocFailed<T>> for Ending {
    ghost from_gives = { λ _ e. e ≡ Memory };

    fn from(_: AllocFailed<T>) -> Self {
        Ending::Memory
    }
}
