//! The printed names of cells.

ghost use Rattle.std.specs.Prelude.{◌≡◌, ◌<◌, All, IfOk, length, map, Some};
ghost use Rattle.m_symbols.specs.Declarations.{owners_from};
ghost use Rattle.m_symbols.specs.Cells.{cell_name, cell_text, printed_cell};

use crate::{Symbols, Variable};
use itoa::Buffer;
use m_ast::Role;
use m_places::{Name, Seq};
use m_text::append_pieces;
use std::alloc::{AllocError, Global};

/// The printed name of a cell: `IRN` for a variable that isn't a table, `T[1]` for a cell of a
/// table. The only error is out of memory.
pub fn cell_name(alloc: Global, symbols: &Symbols, cell: u32) -> Result<Name, AllocError>
    requires { cell < length (owners_from 0 symbols.now.variables) }
    ensures { IfOk result (λ name. name ≡ cell_name symbols.now cell) }
{
    printed_cell(alloc, symbols.variable(symbols.owner(cell)), cell)
}

// The printed name of a cell of this variable.
fn printed_cell(alloc: Global, variable: &Variable, cell: u32) -> Result<Name, AllocError>
    ensures { IfOk result (λ name. name ≡ printed_cell cell variable.now) }
{
    match &variable.item.role {
        Role::Computed(Some(_)) => table_cell(
            alloc,
            &variable.item.name,
            cell.saturating_sub(variable.first_cell),
        ),
        Role::Computed(None) => variable.item.name.copy(alloc),
        Role::Input(_) => variable.item.name.copy(alloc),
        Role::Constant(_) => variable.item.name.copy(alloc),
    }
}

// The printed name of a cell of a table.
fn table_cell(alloc: Global, name: &Name, k: u32) -> Result<Name, AllocError>
    ensures { IfOk result (λ printed. printed ≡ cell_text (Some 0) name.now k) }
{
    let mut number = Buffer::new();
    let digits = number.format(k).as_bytes();
    let mut text = Vec::new(alloc);
    append_pieces(&mut text, &[name.bytes(), b"[", digits, b"]"])?;
    Name::new(alloc, &text)
}

/// The printed names of cells, in order. The only error is out of memory.
pub fn cell_names(alloc: Global, symbols: &Symbols, cells: &[u32]) -> Result<Seq<Name>, AllocError>
    requires { All (λ c. c < length (owners_from 0 symbols.now.variables)) cells.now }
    ensures { IfOk result (λ names. names ≡ map (cell_name symbols.now) cells.now) }
{
    let mut names = Vec::new(alloc);
    for cell in cells {
        let name = cell_name(alloc, symbols, *cell)?;
        names.push(name)?;
    }
    Ok(Seq::from_vec(names))
}
