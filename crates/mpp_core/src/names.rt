//! Resolves names to cells.

ghost use Rattle.std.specs.Prelude.{◌≡◌, ◌≢◌, ◌+◌, ◌≤◌, ◌<◌, Ok, Err, Some, IfSome, []};
ghost use Rattle.std.specs.Option.{option_copied, ok_or};
ghost use Rattle.m_places.specs.Refusals.{Says};
ghost use Rattle.m_ast.specs.Items.{variable_size};
ghost use Rattle.m_symbols.specs.Cells.{variable_named};
ghost use Rattle.m_symbols.specs.Placed.{IsPlaced};
ghost use Rattle.mpp_core.specs.Names.{resolved_cell, cell_at, resolved_target, resolved_each, each_once};
ghost use Rattle.mpp_core.specs.declared.fault.CoreFault.TheVariants.{Memory, UnknownInDriver, BadTargetInDriver};

use crate::CoreFault;
use m_ast::Role;
use m_places::{Name, Seq};
use m_symbols::{Symbols, Variable};
use mpp_parser::CellName;
use std::alloc::Global;

// The variable with this name.
fn variable_named<'a>(symbols: &'a Symbols, name: &Name) -> Option<&'a Variable>
    ensures { option_copied result ≡ variable_named symbols.now name.now }
{
    let number = symbols.find(name.bytes())?;
    Some(symbols.variable(number))
}

/// The error of a name that doesn't resolve, on this line.
pub(crate) fn unknown(alloc: Global, name: &Name, line: u32) -> CoreFault
    ensures { result ≢ Memory → result ≡ UnknownInDriver name.now line }
{
    match name.copy(alloc) {
        Ok(name) => CoreFault::UnknownInDriver(name, line),
        Err(_) => CoreFault::Memory,
    }
}

/// The cell that a name on this line resolves to.
pub(crate) fn cell_of(
    alloc: Global,
    symbols: &Symbols,
    line: u32,
    name: &CellName,
) -> Result<u32, CoreFault>
    requires { IsPlaced symbols.now }
    ensures { Says Memory result (λ cell. cell) (resolved_cell symbols.now line name.now) }
{
    let Some(variable) = variable_named(symbols, &name.name) else {
        return Err(unknown(alloc, &name.name, line));
    };
    cell_at(alloc, variable, line, name, symbols.cells())
}

// The cell of a variable, at the index of a name or without one. There are `cells` cells.
fn cell_at(
    alloc: Global,
    variable: &Variable,
    line: u32,
    name: &CellName,
    all: u32,
) -> Result<u32, CoreFault>
    requires fits { variable.now.first_cell + variable.now.cells ≤ all }
    requires size { IfSome (variable_size variable.now.item) (λ size. variable.now.cells ≡ size) }
    ensures { Says Memory result (λ cell. cell)
        (ok_or (cell_at variable.now.first_cell name.now.index (variable_size variable.now.item)) (UnknownInDriver name.now.name line)) }
{
    match (size_of(variable), name.index) {
        (None, None) => Ok(variable.first_cell),
        (Some(size), Some(k)) if k < size => Ok(variable.first_cell + k),
        _ => Err(unknown(alloc, &name.name, line)),
    }
}

fn size_of(variable: &Variable) -> Option<u32>
    ensures { result ≡ variable_size variable.now.item }
{
    match &variable.item.role {
        Role::Computed(size) => *size,
        Role::Input(_) => None,
        Role::Constant(_) => None,
    }
}

/// The cell that a target on this line resolves to, which isn't a constant's.
pub(crate) fn target_of(
    alloc: Global,
    symbols: &Symbols,
    line: u32,
    name: &CellName,
) -> Result<u32, CoreFault>
    requires { IsPlaced symbols.now }
    ensures { Says Memory result (λ cell. cell) (resolved_target symbols.now line name.now) }
{
    let Some(variable) = variable_named(symbols, &name.name) else {
        return Err(unknown(alloc, &name.name, line));
    };
    let cell = cell_at(alloc, variable, line, name, symbols.cells())?;
    if let Role::Constant(_) = &variable.item.role {
        return Err(bad_target(alloc, &name.name, line));
    }
    Ok(cell)
}

// The error of a target that is a constant.
fn bad_target(alloc: Global, name: &Name, line: u32) -> CoreFault
    ensures { result ≢ Memory → result ≡ BadTargetInDriver name.now line }
{
    match name.copy(alloc) {
        Ok(name) => CoreFault::BadTargetInDriver(name, line),
        Err(_) => CoreFault::Memory,
    }
}

/// The cells that targets on this line resolve to, none of which is a constant's.
pub(crate) fn targets_of(
    alloc: Global,
    symbols: &Symbols,
    line: u32,
    names: &[CellName],
) -> Result<Vec<u32>, CoreFault>
    requires { IsPlaced symbols.now }
    ensures { Says Memory result (λ cells. cells.items) (resolved_each (resolved_target symbols.now line) [] names.now) }
{
    let mut cells = Vec::with_capacity(alloc, names.len())?;
    for name in names {
        let cell = target_of(alloc, symbols, line, name)?;
        cells.push(cell)?;
    }
    Ok(cells)
}

/// These cells in ascending order, without repetitions.
pub(crate) fn each_once(cells: Vec<u32>) -> Seq<u32>
    ensures { result ≡ each_once cells.items }
{
    let mut cells = cells;
    cells.sort_unstable();
    cells.dedup();
    Seq::from_vec(cells)
}
