//! From names to variables and cells.

ghost use Rattle.std.specs.Prelude.{◌≡◌, Ok, Err};
ghost use Rattle.std.specs.Option.{option_copied};
ghost use Rattle.m_places.specs.Refusals.{Says};
ghost use Rattle.m_symbols.specs.Cells.{variable_named};
ghost use Rattle.m_resolve.specs.Terms.{resolved_cell, resolved_table};
ghost use Rattle.m_resolve.specs.declared.fault.ResolveFault.TheVariants.{Memory};

use crate::ResolveFault;
use m_ast::{PlainName, Role};
use m_places::{Name, Place};
use m_symbols::{Symbols, Variable};
use std::alloc::Global;

/// The variable with a name.
pub(crate) fn variable_named<'a>(symbols: &'a Symbols, name: &Name) -> Option<&'a Variable>
    ensures { option_copied result ≡ variable_named symbols.now name.now }
{
    let number = symbols.find(name.bytes())?;
    Some(symbols.variable(number))
}

/// The cell of a name without an index.
pub(crate) fn cell_of(
    alloc: Global,
    symbols: &Symbols,
    name: &PlainName,
    place: Place,
) -> Result<u32, ResolveFault>
    ensures { Says Memory result (λ cell. cell) (resolved_cell symbols.now name.now place) }
{
    let name = name.written(alloc)?;
    cell_named(symbols, name, place)
}

// The same for a name as its bytes.
fn cell_named(symbols: &Symbols, name: Name, place: Place) -> Result<u32, ResolveFault>
    ensures { Says Memory result (λ cell. cell) (resolved_cell symbols.now name place) }
{
    let Some(variable) = variable_named(symbols, &name) else {
        return Err(ResolveFault::UnknownName(name, place));
    };
    match &variable.item.role {
        Role::Computed(Some(_)) => Err(ResolveFault::IsATable(name, place)),
        Role::Computed(None) => Ok(variable.first_cell),
        Role::Input(_) => Ok(variable.first_cell),
        Role::Constant(_) => Ok(variable.first_cell),
    }
}

/// The first cell of a table, and its size.
pub(crate) fn table_of(
    alloc: Global,
    symbols: &Symbols,
    name: &PlainName,
    place: Place,
) -> Result<(u32, u32), ResolveFault>
    ensures { Says Memory result (λ table. table) (resolved_table symbols.now name.now place) }
{
    let name = name.written(alloc)?;
    table_named(symbols, name, place)
}

// The same for a name as its bytes.
fn table_named(symbols: &Symbols, name: Name, place: Place) -> Result<(u32, u32), ResolveFault>
    ensures { Says Memory result (λ table. table) (resolved_table symbols.now name place) }
{
    let Some(variable) = variable_named(symbols, &name) else {
        return Err(ResolveFault::UnknownName(name, place));
    };
    match &variable.item.role {
        Role::Computed(Some(size)) => Ok((variable.first_cell, *size)),
        Role::Computed(None) => Err(ResolveFault::NotATable(name, place)),
        Role::Input(_) => Err(ResolveFault::NotATable(name, place)),
        Role::Constant(_) => Err(ResolveFault::NotATable(name, place)),
    }
}
