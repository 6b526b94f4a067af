ghost use Rattle.std.specs.Prelude.{◌≡◌};
ghost use Rattle.m_items.specs.declared.item_fault.ItemFault.TheVariants.{Memory};

use std::alloc::{AllocError, AllocFailed};

/// Why no item, or no part of one, was read.
#[derive(Clone, Copy, Debug, PartialEq, Eq)]
pub enum ItemFault {
    /// The tokens don't parse as one.
    NoItem,
    /// Out of memory.
    Memory,
}

impl From<AllocError> for ItemFault {
    ghost from_gives = { λ _ e. e ≡ Memory };

    fn from(_error: AllocError) -> ItemFault {
        ItemFault::Memory
    }
}

impl<T: Drop> From<AllocFailed<T>> for ItemFault {
    ghost from_gives = { λ _ e. e ≡ Memory };

    fn from(_error: AllocFailed<T>) -> ItemFault {
        ItemFault::Memory
    }
}
