//! From names to cells, and the returned cells.

ghost use Rattle.std.specs.Prelude.{◌≡◌, ◌<◌, ◌≤◌, ◌+◌, ◌++◌, ◌∷◌, [], All, IfOk, IfSome, OnOk, length, take, drop, Some, None, option_map};
ghost use Rattle.std.specs.List.{range_with_len};
ghost use Rattle.m_symbols.specs.Declarations.{owners_from};
ghost use Rattle.m_symbols.specs.Placed.{IsPlaced};
ghost use Rattle.m_symbols.specs.Cells.{request_cell, named_cell, returned_cells, returned_by};

use crate::spans::{cell_at_index, cell_without_index, span_of};
use crate::{Symbols, Variable};
use m_names::has_name;
use m_places::Seq;
use m_text::first_of;
use std::alloc::{AllocError, Global};

/// The cell that a request names, or `None`: `IRN` for a variable that isn't a table, `T[2]` for a
/// cell of a table. Takes no memory.
pub fn find_request(symbols: &Symbols, text: &[u8]) -> Option<u32>
    requires { IsPlaced symbols.now }
    ensures cell { result ≡ request_cell symbols.now text.now }
    ensures known { IfSome result (λ cell. cell < length (owners_from 0 symbols.now.variables)) }
{
    let at = first_of(text, b'[');
    let number = symbols.find(&text[..at])?;
    let span = span_of(symbols.variable(number));
    if at == text.len() {
        cell_without_index(span)
    } else {
        cell_at_index(span, &text[at + 1..], symbols.cells())
    }
}

/// The returned cells: those of all variables with the attribute `restituee`, in order of
/// declaration, and all cells of a table. The only error is out of memory.
pub fn returned(alloc: Global, symbols: &Symbols) -> Result<Seq<u32>, AllocError>
    requires { IsPlaced symbols.now }
    ensures cells { IfOk result (λ cells. cells ≡ returned_cells symbols.now) }
    ensures known { IfOk result (All (λ c. c < length (owners_from 0 symbols.now.variables))) }
{
    let mut cells = Vec::new(alloc);
    let all = symbols.cells();
    for number in 0..symbols.count() {
        add_returned(symbols.variable(number), all, &mut cells)?;
    }
    Ok(Seq::from_vec(cells))
}

// Adds the cells of a variable, if it is returned. `all` is the count of cells.
fn add_returned(variable: &Variable, all: u32, cells: &mut Vec<u32>) -> Result<(), AllocError>
    requires { variable.now.first_cell + variable.now.cells ≤ all }
    ensures { OnOk result (cells.new.items ≡ cells.old.items ++ returned_by variable.now) }
{
    if has_name(variable.item.words.as_slice(), b"restituee") {
        for cell in variable.first_cell..variable.first_cell + variable.cells {
            cells.push(cell)?;
        }
    }
    Ok(())
}
