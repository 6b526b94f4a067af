//! Errors of ordering.

ghost use Rattle.std.specs.Prelude.{◌≡◌};
ghost use Rattle.rule_order.specs.declared.fault.OrderFault.TheVariants.{Memory};

use m_places::Seq;
use std::alloc::{AllocError, AllocFailed};

/// Why a base has no order.
#[derive(Drop)]
pub enum OrderFault {
    /// Distinct cells, each reading the next and the last reading the first. The first one has the
    /// least number.
    Cycle(Seq<u32>),
    /// Out of memory.
    Memory,
}

impl From<AllocError> for OrderFault {
    ghost from_gives = { λ _ f. f ≡ Memory };

    fn from(_error: AllocError) -> OrderFault {
        OrderFault::Memory
    }
}

impl<T: Drop> From<AllocFailed<T>> for OrderFault {
    ghost from_gives = { λ _ f. f ≡ Memory };

    fn from(_error: AllocFailed<T>) -> OrderFault {
        OrderFault::Memory
    }
}
