ghost use Rattle.std.specs.Prelude.{◌≡◌};
ghost use Rattle.index_expand.specs.declared.fault.ExpandFault.TheVariants.{Memory};

use m_places::Place;
use std::alloc::{AllocError, AllocFailed};

/// Why items have no expansion.
#[derive(Clone, Copy, Debug, PartialEq, Eq)]
pub enum ExpandFault {
    /// An index with a range whose low point is above its high one, or whose points are neither two
    /// whole numbers nor two letters, or whose letter is bound twice in its header. The place is
    /// that of the index.
    BadRange(Place),
    /// A header with more than 10,000 instances. The place is that of the header.
    LoopTooLarge(Place),
    /// A word with a letter from a to z that no enclosing loop binds. The place is that of the
    /// word.
    UnboundIndex(Place),
    /// With this item there are more parts than a base may have. The place is that of the item.
    TooManyParts(Place),
    /// Out of memory.
    Memory,
}

impl From<AllocError> for ExpandFault {
    ghost from_gives = { λ _ f. f ≡ Memory };

    fn from(_e: AllocError) -> ExpandFault {
        ExpandFault::Memory
    }
}

impl<T: Drop> From<AllocFailed<T>> for ExpandFault {
    ghost from_gives = { λ _ f. f ≡ Memory };

    fn from(_e: AllocFailed<T>) -> ExpandFault {
        ExpandFault::Memory
    }
}
