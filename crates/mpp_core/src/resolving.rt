//! Resolves whole drivers.

ghost use Rattle.std.specs.Prelude.{◌≡◌, ◌<◌, ◌^◌, Ok, Err, IfOk, [], length};
ghost use Rattle.m_places.specs.Refusals.{Outcome, Says};
ghost use Rattle.m_symbols.specs.Declarations.{owners_from};
ghost use Rattle.m_symbols.specs.Placed.{IsPlaced};
ghost use Rattle.driver_core.specs.Valid.{IsValidCore};
ghost use Rattle.mpp_core.specs.Cores.{IsCore, IsCoreFault, core_of};
ghost use Rattle.mpp_core.specs.Names.{resolved_names};
ghost use Rattle.mpp_core.specs.declared.fault.CoreFault.TheVariants.{Memory};

use crate::CoreFault;
use crate::functions::{bodies, copied_names, function_names, main_of};
use crate::rings::no_ring;
use crate::scope::Scope;
use driver_core::Core;
use m_names::Names;
use m_symbols::Symbols;
use mpp_parser::Driver;
use std::alloc::Global;

/// The driver over the cells of the declared variables, or its first error: a function name that
/// occurs twice, then a missing `main`, then the first name, in reading order, that doesn't
/// resolve, then a cycle of calls. Functions are numbered in 32 bits: there are fewer than 2^32, as
/// in any file within the limits.
pub fn resolve_driver(alloc: Global, driver: &Driver, symbols: &Symbols) -> Result<Core, CoreFault>
    requires placed { IsPlaced symbols.now }
    requires few { length driver.now.functions < 2 ^ 32 }
    ensures outcome { Outcome Memory result (IsCore driver.now symbols.now) (IsCoreFault driver.now symbols.now) }
    ensures valid { IfOk result IsValidCore }
    ensures cells { IfOk result (λ core. core.cells ≡ length (owners_from 0 symbols.now.variables)) }
{
    let names = function_names(alloc, driver.functions.as_slice())?;
    let core = resolve_names(alloc, driver, symbols, &names)?;
    no_ring(alloc, &core, names.len() as u32)?;
    Ok(core)
}

// The driver over cells, whose functions have these names, or the first error of the other names.
// It may have cycles of calls.
fn resolve_names(
    alloc: Global,
    driver: &Driver,
    symbols: &Symbols,
    names: &Names,
) -> Result<Core, CoreFault>
    requires placed { IsPlaced symbols.now }
    requires names { resolved_names [] driver.now.functions ≡ Ok names.now }
    requires few { length names.now < 2 ^ 32 }
    ensures outcome { Says Memory result (λ core. core) (core_of driver.now symbols.now) }
    ensures cells { IfOk result (λ core. core.cells ≡ length (owners_from 0 symbols.now.variables)) }
{
    let functions = driver.functions.as_slice();
    let main = main_of(names)?;
    let scope = Scope::new(alloc, symbols)?;
    let bodies = bodies(alloc, functions, names, &scope)?;
    let names = copied_names(alloc, functions)?;
    Ok(Core {
        cells: symbols.cells(),
        names,
        bodies,
        main,
    })
}
