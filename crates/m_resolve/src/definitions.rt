//! Definitions over cells.

ghost use Rattle.std.specs.Prelude.{◌≡◌, ◌<◌, ◌++◌, ◌∷◌, [], Ok, Err, not, IfOk, length, List, ℕ};
ghost use Rattle.m_places.specs.Refusals.{Says};
ghost use Rattle.m_places.specs.declared.place.Place.{Place};
ghost use Rattle.m_symbols.specs.Declarations.{owners_from};
ghost use Rattle.micro_m.specs.Bases.{Definition as CellDefinition, is_among};
ghost use Rattle.m_symbols.specs.Placed.{IsPlaced};
ghost use Rattle.m_resolve.specs.Terms.{if_resolved, resolved_term};
ghost use Rattle.m_resolve.specs.Bases.{resolved_definitions, resolved_definition, resolved_target, new_target, cells_of};
ghost use Rattle.m_resolve.specs.inner.Marks.{Marks};
ghost use Rattle.m_resolve.specs.declared.fault.ResolveFault.TheVariants.{Memory};

use crate::ResolveFault;
use crate::targets::target;
use crate::terms::term;
use m_ast::Definition;
use m_places::Place;
use m_symbols::{Symbols, cell_name};
use micro_m::MTerm;
use std::alloc::Global;

/// Definitions over cells, in order, or the error of the first wrong one.
pub(crate) fn definitions(
    alloc: Global,
    all: &[Definition],
    symbols: &Symbols,
) -> Result<Vec<(u32, MTerm, Place)>, ResolveFault>
    requires { IsPlaced symbols.now }
    ensures { Says Memory result (λ made. made.items) (resolved_definitions symbols.now [] all.now) }
{
    let mut marked = vec![in alloc; false; symbols.cells() as usize]?;
    let mut made = Vec::with_capacity(alloc, all.len())?;
    for one in all {
        let cell = new_target(alloc, one, &mut marked, symbols)?;
        let tree = term(alloc, &one.term, symbols)?;
        made.push((cell, Box::into_inner(tree), one.place))?;
    }
    Ok(made)
}

// Marks the cell of a definition and returns it, unless an earlier definition has it.
fn new_target(
    alloc: Global,
    definition: &Definition,
    marked: &mut [bool],
    symbols: &Symbols,
) -> Result<u32, ResolveFault>
    requires placed { IsPlaced symbols.now }
    requires count { length marked.old ≡ length (owners_from 0 symbols.now.variables) }
    ensures outcome { (earlier : List ℕ) → Marks marked.old earlier → Says Memory result (λ cell. cell)
        (if_resolved (new_target symbols.now definition.now.place earlier) (resolved_target symbols.now definition.now)) }
    ensures marks { IfOk result (λ cell. (earlier : List ℕ) → Marks marked.old earlier → Marks marked.new (earlier ++ cell ∷ [])) }
    ensures counted { length marked.new ≡ length marked.old }
{
    let cell = target(alloc, definition, symbols)?;
    if !mark(marked, cell) {
        let name = cell_name(alloc, symbols, cell)?;
        return Err(ResolveFault::DefinedTwice(name, definition.place));
    }
    Ok(cell)
}

// Marks a cell, and returns whether it was unmarked.
fn mark(marked: &mut [bool], cell: u32) -> bool
    requires { cell < length marked.old }
    ensures fresh { (cells : List ℕ) → Marks marked.old cells → result ≡ not (is_among cell cells) }
    ensures marks { (cells : List ℕ) → Marks marked.old cells → Marks marked.new (cells ++ cell ∷ []) }
    ensures counted { length marked.new ≡ length marked.old }
{
    let fresh = !marked[cell as usize];
    marked[cell as usize] = true;
    fresh
}
