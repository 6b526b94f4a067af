//! Resolves the functions of a driver.

ghost use Rattle.std.specs.Prelude.{◌≡◌, ◌≢◌, ◌<◌, ◌^◌, Ok, Err, [], IfOk, length, map};
ghost use Rattle.m_places.specs.Refusals.{Says};
ghost use Rattle.m_symbols.specs.Placed.{IsPlaced};
ghost use Rattle.mpp_parser.specs.CommandView.{block_of as acts_of};
ghost use Rattle.mpp_core.specs.Names.{resolved_name, resolved_names, resolved_main, resolved_each};
ghost use Rattle.mpp_core.specs.Bodies.{resolved_acts};
ghost use Rattle.mpp_core.specs.declared.fault.CoreFault.TheVariants.{Memory, FunctionTwice};

use crate::CoreFault;
use crate::commands::commands;
use crate::scope::Scope;
use driver_core::CCommand;
use m_names::{Key, Names, NamesDigest};
use m_places::{Name, Seq};
use mpp_parser::Function;
use std::alloc::{AllocError, Global};

/// The names of functions in order, which must be distinct and none of them `call_m`.
pub(crate) fn function_names(alloc: Global, functions: &[Function]) -> Result<Names, CoreFault>
    ensures { Says Memory result (λ names. names) (resolved_names [] functions.now) }
{
    let mut names = Names::under(alloc, key_of(functions));
    for function in functions {
        add_name(alloc, function, &mut names)?;
    }
    Ok(names)
}

// A hash key derived from all names, so that no choice of names makes them collide.
fn key_of(functions: &[Function]) -> Key {
    let mut digest = NamesDigest::new();
    for function in functions {
        digest.take(function.name.bytes());
    }
    digest.key()
}

// Adds the name of one more function.
fn add_name(alloc: Global, function: &Function, names: &mut Names) -> Result<(), CoreFault>
    ensures { Says Memory result (λ _. names.new) (resolved_name names.old function.now) }
{
    if function.name.bytes() == b"call_m".as_slice() {
        return Err(twice(alloc, function));
    }
    if !names.add(alloc, function.name.bytes())? {
        return Err(twice(alloc, function));
    }
    Ok(())
}

// The error of a function whose name is taken.
fn twice(alloc: Global, function: &Function) -> CoreFault
    ensures { result ≢ Memory → result ≡ FunctionTwice function.now.name function.now.line }
{
    match function.name.copy(alloc) {
        Ok(name) => CoreFault::FunctionTwice(name, function.line),
        Err(_) => CoreFault::Memory,
    }
}

/// The number of `main` among the functions of these names.
pub(crate) fn main_of(names: &Names) -> Result<u32, CoreFault>
    requires { length names.now < 2 ^ 32 }
    ensures { Says Memory result (λ main. main) (resolved_main names.now) }
{
    match names.number(b"main") {
        Some(main) => Ok(main),
        None => Err(CoreFault::NoMain),
    }
}

/// The names of functions in order, as a list.
pub(crate) fn copied_names(alloc: Global, functions: &[Function]) -> Result<Seq<Name>, AllocError>
    ensures { IfOk result (λ names. names ≡ map (λ f. f.name) functions.now) }
{
    let mut names = Vec::with_capacity(alloc, functions.len())?;
    for function in functions {
        let name = function.name.copy(alloc)?;
        names.push(name)?;
    }
    Ok(Seq::from_vec(names))
}

/// The bodies of functions over cells and the functions with these names, or the first of their
/// errors.
pub(crate) fn bodies(
    alloc: Global,
    functions: &[Function],
    names: &Names,
    scope: &Scope<'_>,
) -> Result<Seq<Seq<CCommand>>, CoreFault>
    requires placed { IsPlaced scope.now }
    requires few { length names.now < 2 ^ 32 }
    ensures { Says Memory result (λ bodies. bodies)
        (resolved_each (λ f. resolved_acts scope.now names.now [] (acts_of f.body)) [] functions.now) }
{
    let mut bodies = Vec::with_capacity(alloc, functions.len())?;
    for function in functions {
        let body = commands(alloc, function.body.as_slice(), names, scope)?;
        bodies.push(Seq::from_vec(body))?;
    }
    Ok(Seq::from_vec(bodies))
}
