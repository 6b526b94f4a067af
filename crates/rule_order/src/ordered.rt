//! A base with an order of its definitions.

ghost use Rattle.std.specs.Prelude.{◌≡◌, OnOk};
ghost use Rattle.m_places.specs.Refusals.{Outcome};
ghost use Rattle.micro_m.specs.Bases.{IsValidBase};
ghost use Rattle.micro_m.specs.Reads.{HasNoCycle};
ghost use Rattle.rule_order.specs.declared.fault.OrderFault.TheVariants.{Memory};
ghost use Rattle.rule_order.specs.Orders.{IsOrder, ShowsCycle};

use crate::OrderFault;
use crate::search::sequence_of;
use m_places::Seq;
use micro_m::Base;
use std::alloc::Global;

/// A base, and the positions of its definitions in an order in which each comes after all
/// definitions of cells that it reads.
#[derive(Drop)]
pub struct Ordered {
    pub base: Base,
    pub sequence: Seq<u32>,
}

/// Orders the definitions of a valid base: each comes after all definitions of cells that it reads.
/// For `A = B` and then `B = 1` the sequence is 1, 0. The base is returned unchanged.
///
/// If there is no order, the error is a cycle: distinct cells, each reading the next and the last
/// reading the first, beginning with the least number. The time is linear in the parts of the terms
/// and the number of cells. The depth of recursion doesn't depend on the length of chains of
/// definitions.
pub fn order(alloc: Global, base: Base) -> Result<Ordered, OrderFault>
    requires { IsValidBase base }
    ensures outcome { Outcome Memory result
        (λ ordered. (ordered.base ≡ base) × IsOrder base ordered.sequence) (ShowsCycle base) }
    ensures no_cycle { OnOk result (HasNoCycle base) }
{
    let sequence = sequence_of(alloc, &base)?;
    Ok(Ordered {
        base,
        sequence: Seq::from_vec(sequence),
    })
}
