//! Rejects cycles of calls: if the base of the calls has no order, its cycle is one of calls.

ghost use Rattle.std.specs.Prelude.{◌≡◌, ◌≢◌, [], IfOk, length, map, slice_get};
ghost use Rattle.std.specs.Option.{unwrap_or};
ghost use Rattle.m_places.specs.Refusals.{Outcome};
ghost use Rattle.driver_core.specs.Valid.{HasNoRing, IsInRange};
ghost use Rattle.mpp_core.specs.Cores.{IsRecursion};
ghost use Rattle.mpp_core.specs.declared.fault.CoreFault.TheVariants.{Memory, DriverRecursion};

use crate::CoreFault;
use crate::calls::calls_base;
use driver_core::Core;
use m_places::{Name, Seq};
use rule_order::{OrderFault, order};
use std::alloc::{AllocError, Global};

/// Succeeds if no function of a driver reaches itself by calls, and else reports a cycle. There are
/// `functions` functions.
pub(crate) fn no_ring(alloc: Global, core: &Core, functions: u32) -> Result<(), CoreFault>
    requires count { functions ≡ length core.now.bodies }
    requires range { IsInRange core.now }
    ensures { Outcome Memory result (λ _. HasNoRing core.now) (λ fault. IsRecursion core.now fault) }
{
    let base = calls_base(alloc, core.bodies.as_slice(), functions)?;
    match order(alloc, base) {
        Ok(_) => Ok(()),
        Err(OrderFault::Memory) => Err(CoreFault::Memory),
        Err(OrderFault::Cycle(ring)) => {
            Err(recursion(alloc, core.names.as_slice(), ring.as_slice()))
        }
    }
}

// The error of a cycle of calls.
fn recursion(alloc: Global, names: &[Name], ring: &[u32]) -> CoreFault
    ensures { result ≢ Memory → result ≡ DriverRecursion (map (λ f. unwrap_or (slice_get names.now f) []) ring.now) }
{
    match shown_names(alloc, names, ring) {
        Ok(shown) => CoreFault::DriverRecursion(shown),
        Err(_) => CoreFault::Memory,
    }
}

// The names of functions.
fn shown_names(alloc: Global, names: &[Name], functions: &[u32]) -> Result<Seq<Name>, AllocError>
    ensures { IfOk result (λ shown. shown ≡ map (λ f. unwrap_or (slice_get names.now f) []) functions.now) }
{
    let mut shown = Vec::with_capacity(alloc, functions.len())?;
    for function in functions {
        let name = function_name(alloc, names, *function)?;
        shown.push(name)?;
    }
    Ok(Seq::from_vec(shown))
}

fn function_name(alloc: Global, names: &[Name], function: u32) -> Result<Name, AllocError>
    ensures { IfOk result (λ name. name ≡ unwrap_or (slice_get names.now function) []) }
{
    match names.get(function as usize) {
        Some(name) => name.copy(alloc),
        None => Name::new(alloc, b""),
    }
}
