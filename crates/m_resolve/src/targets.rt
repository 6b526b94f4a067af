//! The targets of formulas.

ghost use Rattle.std.specs.Prelude.{◌≡◌, ◌<◌, ◌≤◌, ◌+◌, ◌^◌, Ok, Err, IfOk, IfSome, length};
ghost use Rattle.m_places.specs.Refusals.{Outcome, Says};
ghost use Rattle.m_ast.specs.Items.{variable_size};
ghost use Rattle.m_symbols.specs.Declarations.{owners_from};
ghost use Rattle.m_symbols.specs.Placed.{IsPlaced};
ghost use Rattle.m_resolve.specs.Bases.{resolved_target, target_in, table_target, single_target};
ghost use Rattle.m_resolve.specs.declared.fault.ResolveFault.TheVariants.{Memory};

use crate::ResolveFault;
use crate::names::variable_named;
use m_ast::{Definition, Role, Slot};
use m_places::{Name, Place};
use m_symbols::{Symbols, Variable};
use std::alloc::Global;

/// The cell of a definition's target, regardless of other definitions.
pub(crate) fn target(
    alloc: Global,
    definition: &Definition,
    symbols: &Symbols,
) -> Result<u32, ResolveFault>
    requires { IsPlaced symbols.now }
    ensures outcome { Says Memory result (λ cell. cell) (resolved_target symbols.now definition.now) }
    ensures known { IfOk result (λ cell. cell < length (owners_from 0 symbols.now.variables)) }
{
    let name = definition.target.written(alloc)?;
    target_named(name, definition, symbols)
}

// The same, given the target's name as its bytes.
fn target_named(name: Name, definition: &Definition, symbols: &Symbols) -> Result<u32, ResolveFault>
    requires placed { IsPlaced symbols.now }
    requires name { name ≡ definition.now.target }
    ensures outcome { Says Memory result (λ cell. cell) (resolved_target symbols.now definition.now) }
    ensures known { IfOk result (λ cell. cell < length (owners_from 0 symbols.now.variables)) }
{
    let Some(variable) = variable_named(symbols, &name) else {
        return Err(ResolveFault::UnknownName(name, definition.place));
    };
    target_in(name, definition, variable, symbols.cells())
}

// The cell of a target in this variable, which has this name. `all` is the count of cells.
fn target_in(
    name: Name,
    definition: &Definition,
    variable: &Variable,
    all: u32,
) -> Result<u32, ResolveFault>
    requires fits { variable.now.first_cell + variable.now.cells ≤ all }
    requires size { IfSome (variable_size variable.now.item) (λ size. variable.now.cells ≡ size) }
    ensures { Says Memory result (λ cell. cell)
        (target_in name definition.now.place variable.now.first_cell definition.now.slot variable.now.item.role) }
{
    let place = definition.place;
    match &variable.item.role {
        Role::Computed(Some(size)) => {
            table_target(name, place, variable.first_cell, *size, definition.slot)
        }
        Role::Computed(None) => {
            single_target(name, place, variable.first_cell, true, definition.slot)
        }
        Role::Input(_) => single_target(name, place, variable.first_cell, false, definition.slot),
        Role::Constant(_) => {
            single_target(name, place, variable.first_cell, false, definition.slot)
        }
    }
}

// The cell of a target that isn't a table, and is computed or not.
fn single_target(
    name: Name,
    place: Place,
    first: u32,
    is_computed: bool,
    slot: Slot,
) -> Result<u32, ResolveFault>
    ensures { Says Memory result (λ cell. cell) (single_target name place first is_computed slot) }
{
    match slot {
        Slot::Whole => {
            if is_computed {
                Ok(first)
            } else {
                Err(ResolveFault::BadTarget(name, place))
            }
        }
        Slot::Cell(_) => Err(ResolveFault::NotATable(name, place)),
        Slot::Every => Err(ResolveFault::NotATable(name, place)),
    }
}

// The cell of a target that is a table.
fn table_target(
    name: Name,
    place: Place,
    first: u32,
    size: u32,
    slot: Slot,
) -> Result<u32, ResolveFault>
    requires { first + size < 2 ^ 32 }
    ensures { Says Memory result (λ cell. cell) (table_target name place first size slot) }
{
    match slot {
        Slot::Whole => Err(ResolveFault::IsATable(name, place)),
        Slot::Cell(k) => {
            if k < size {
                Ok(first + k)
            } else {
                Err(ResolveFault::BadTarget(name, place))
            }
        }
        Slot::Every => Err(ResolveFault::BadTarget(name, place)),
    }
}
