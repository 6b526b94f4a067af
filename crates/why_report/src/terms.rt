//! The terms of a base in one list.

ghost use Rattle.std.specs.Prelude.{◌≡◌, ◌+◌, ◌<◌, ◌≤◌, ◌++◌, IfOk, OnOk, drop, length};
ghost use Rattle.why_report.specs.inner.Checked.{ArePlaces};
ghost use Rattle.why_report.specs.inner.Parts.{cell_parts, height};
ghost use Rattle.why_report.specs.inner.Terms.{AreTerms, IsSpan, row_at};

use crate::evaluate::height_of;
use crate::flatten::append_term;
use crate::part::Part;
use crate::places::definition_at;
use micro_m::Base;
use std::alloc::{AllocError, Global};

/// The terms that define the cells of a base, in order of the cells: a cell without a definition
/// has no parts.
#[derive(Drop)]
pub(crate) struct Terms {
    pub(crate) parts: Vec<Part>,
    /// Where the parts of each cell begin, and the end of the last one's.
    pub(crate) begins: Vec<usize>,
    /// How many values the stack of any term holds at most.
    pub(crate) height: usize,
}

/// The terms of a base.
pub(crate) fn terms_of(alloc: Global, base: &Base, places: &[usize]) -> Result<Terms, AllocError>
    requires { ArePlaces base.now places.now }
    ensures { IfOk result (AreTerms base.now base.now.cells) }
{
    let mut begins = Vec::with_capacity(alloc, base.cells as usize + 1)?;
    begins.push(0)?;
    let mut terms = Terms {
        parts: Vec::new(alloc),
        begins,
        height: 0,
    };
    for cell in 0..base.cells {
        add_cell(base, places, cell, &mut terms)?;
    }
    terms.parts.shrink_to_fit();
    Ok(terms)
}

// Appends the term of a cell.
fn add_cell(base: &Base, places: &[usize], cell: u32, terms: &mut Terms) -> Result<(), AllocError>
    requires places { ArePlaces base.now places.now }
    requires cell { cell < base.now.cells }
    requires before { AreTerms base.now cell terms.old }
    ensures { OnOk result (AreTerms base.now (cell + 1) terms.new) }
{
    let begin = terms.parts.len();
    append_cell(base, places, cell as usize, &mut terms.parts)?;
    terms.height = higher(terms.height, height_behind(&terms.parts, begin));
    terms.begins.push(terms.parts.len())?;
    Ok(())
}

// Appends the parts of a cell.
fn append_cell(
    base: &Base,
    places: &[usize],
    cell: usize,
    parts: &mut Vec<Part>,
) -> Result<(), AllocError>
    requires places { ArePlaces base.now places.now }
    requires cell { cell < base.now.cells }
    ensures { OnOk result (parts.new.items ≡ parts.old.items ++ cell_parts base.now cell) }
{
    match definition_at(base, places, cell) {
        Some(term) => append_term(term, parts),
        None => Ok(()),
    }
}

// No stack of the parts from a position on holds more values.
fn height_behind(parts: &[Part], begin: usize) -> usize
    requires { begin ≤ length parts.now }
    ensures { height 0 (drop begin parts.now) ≤ result }
{
    height_of(&parts[begin..])
}

fn higher(a: usize, b: usize) -> usize
    ensures first { a ≤ result }
    ensures second { b ≤ result }
{
    if a < b { b } else { a }
}

impl Terms {
    /// The parts of the term that defines a cell.
    pub(crate) fn of(&self, cell: usize) -> &[Part]
        requires within { cell + 1 < length self.now.begins.items }
        requires span { IsSpan self.now cell }
        ensures { result.now ≡ row_at self.now cell }
    {
        let begin = self.begins[cell];
        let end = self.begins[cell + 1];
        &self.parts[begin..end]
    }
}
