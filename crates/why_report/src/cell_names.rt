//! The names of cells, without the declarations.

ghost use Rattle.std.specs.Prelude.{◌≡◌, ◌+◌, ◌<◌, ◌≤◌, ◌^◌, Some, IfOk, IfSome, length, map, slice_get, slice_index};
ghost use Rattle.std.specs.Option.{option_map};
ghost use Rattle.m_names.specs.Names.{AreDistinct, index_of};
ghost use Rattle.m_symbols.specs.Cells.{request_cell};
ghost use Rattle.m_symbols.specs.Declarations.{name_of, names_of, owners_from};
ghost use Rattle.m_symbols.specs.Placed.{IsPlaced};
ghost use Rattle.m_symbols.specs.Spans.{span_of};

use m_names::{Names, NamesFault};
use m_places::Name;
use m_symbols::{Span, Symbols, cell_at_index, cell_without_index, span_of};
use m_text::first_of;
use std::alloc::{AllocError, Global};
use std::marker::Model;
use std::snapshot::Snapshot;

/// What requests and reports need of declarations: of each variable its name and its cells. Contracts
/// see the declarations. They aren't kept: a declaration takes some 200 bytes, and its name and its
/// cells take some 50, with the index some 120.
#[derive(Drop)]
pub struct CellNames {
    // for contracts only: a ghost copy of no size
    declared: Snapshot<Symbols>,
    index: Names,
    names: Vec<Name>,
    spans: Vec<Span>,
    /// For each cell the number of its variable.
    owners: Vec<u32>,
}

impl Model for CellNames {
    ghost use Rattle.m_symbols.specs.Declarations.{Declared};
    ghost use Rattle.why_report.specs.inner.Named.{AreNamed};

    ghost Value = { Declared };

    ghost view = { λ n. n.declared.value };

    ghost invariant = { λ n. AreNamed n.declared.value n.index n.names.items n.spans.items n.owners.items };
}

impl CellNames {
    /// The names of the declared cells. The variables have distinct names. Its only error is running
    /// out of memory.
    pub fn of(alloc: Global, symbols: &Symbols) -> Result<CellNames, AllocError>
        requires placed { IsPlaced symbols.now }
        requires distinct { AreDistinct (names_of symbols.now.variables) }
        ensures { IfOk result (λ names. names ≡ symbols.now) }
    {
        let names = names_in(alloc, symbols)?;
        let index = index_for(alloc, &names)?;
        let spans = spans_in(alloc, symbols)?;
        let owners = owners_in(alloc, symbols)?;
        Ok(CellNames {
            declared: Snapshot::of(symbols),
            index,
            names,
            spans,
            owners,
        })
    }

    /// The cell that a request names, or `None`: `IRN` for a variable that isn't a table, `T[2]` for
    /// a cell of a table. Takes no memory.
    pub fn find(&self, text: &[u8]) -> Option<u32>
        ensures cell { result ≡ request_cell self.now text.now }
        ensures known { IfSome result (λ cell. cell < length (owners_from 0 self.now.variables)) }
    {
        let _ = &self.declared;
        let at = first_of(text, b'[');
        let number = self.number(&text[..at])?;
        let span = self.span(number);
        if at == text.len() {
            cell_without_index(span)
        } else {
            cell_at_index(span, &text[at + 1..], self.cells())
        }
    }

    // The number of the variable with this name.
    fn number(&self, name: &[u8]) -> Option<u32>
        ensures number { result ≡ index_of name.now (names_of self.now.variables) }
        ensures within { IfSome result (λ v. v < length self.now.variables) }
    {
        self.index.number(name)
    }

    // The count of cells.
    fn cells(&self) -> u32
        ensures { result ≡ length (owners_from 0 self.now.variables) }
    {
        self.owners.len() as u32
    }

    /// The number of the variable of this cell.
    pub(crate) fn owner(&self, cell: u32) -> u32
        requires { cell < length (owners_from 0 self.now.variables) }
        ensures owner { result ≡ slice_index (owners_from 0 self.now.variables) cell }
        ensures within { result < length self.now.variables }
    {
        self.owners[cell as usize]
    }

    /// The name of the variable with this number.
    pub(crate) fn name(&self, v: u32) -> &[u8]
        requires { v < length self.now.variables }
        ensures { option_map name_of (slice_get self.now.variables v) ≡ Some result.now }
    {
        self.names[v as usize].bytes()
    }

    /// The cells of the variable with this number.
    pub(crate) fn span(&self, v: u32) -> Span
        requires { v < length self.now.variables }
        ensures span { option_map span_of (slice_get self.now.variables v) ≡ Some result }
        ensures fits { IfSome result.size (λ size. result.first_cell + size ≤ length (owners_from 0 self.now.variables)) }
    {
        self.spans[v as usize]
    }
}

// The names of the variables, in order.
fn names_in(alloc: Global, symbols: &Symbols) -> Result<Vec<Name>, AllocError>
    ensures names { IfOk result (λ names. names.items ≡ names_of symbols.now.variables) }
    ensures few { IfOk result (λ _. length symbols.now.variables < 2 ^ 32) }
{
    let mut names = Vec::with_capacity(alloc, symbols.count() as usize)?;
    for number in 0..symbols.count() {
        let name = symbols.variable(number).item.name.copy(alloc)?;
        names.push(name)?;
    }
    Ok(names)
}

// The index of distinct names. Its only error is running out of memory.
fn index_for(alloc: Global, names: &[Name]) -> Result<Names, AllocError>
    requires { AreDistinct names.now }
    ensures { IfOk result (λ index. index ≡ names.now) }
{
    match Names::of(alloc, names) {
        Ok(index) => Ok(index),
        Err(NamesFault::Memory) => Err(AllocError),
        Err(NamesFault::Repeated(_, _)) => unreachable!(),
    }
}

// The cells of the variables, in order.
fn spans_in(alloc: Global, symbols: &Symbols) -> Result<Vec<Span>, AllocError>
    ensures { IfOk result (λ spans. spans.items ≡ map span_of symbols.now.variables) }
{
    let mut spans = Vec::with_capacity(alloc, symbols.count() as usize)?;
    for number in 0..symbols.count() {
        spans.push(span_of(symbols.variable(number)))?;
    }
    Ok(spans)
}

// For each cell the number of its variable.
fn owners_in(alloc: Global, symbols: &Symbols) -> Result<Vec<u32>, AllocError>
    ensures owners { IfOk result (λ owners. owners.items ≡ owners_from 0 symbols.now.variables) }
    ensures few { IfOk result (λ owners. length owners.items < 2 ^ 32) }
{
    let mut owners = Vec::with_capacity(alloc, symbols.cells() as usize)?;
    for cell in 0..symbols.cells() {
        owners.push(symbols.owner(cell))?;
    }
    Ok(owners)
}
