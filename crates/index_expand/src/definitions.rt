//! The definitions of one instance of a formula: one, or one for each cell of a table.
ghost use Rattle.std.specs.Prelude.{◌≡◌, ◌+◌, ◌∷◌, ◌≤◌, [], IfOk, OnOk, length, map};
ghost use Rattle.std.specs.List.{range_with_len};
ghost use Rattle.m_places.specs.Refusals.{Outcome};
ghost use Rattle.m_symbols.specs.TableSizes.{table_size};
ghost use Rattle.index_expand.specs.Expansion.{defined, defined_cell, definitions_at};
ghost use Rattle.loop_values.specs.Letters.{replaced};
ghost use Rattle.index_expand.specs.Terms.{expanded};
ghost use Rattle.index_expand.specs.inner.Meanings.{meaning};
ghost use Rattle.index_expand.specs.inner.Taken.{IsTaken, IsTooMuch, weighed};

use crate::ExpandFault;
use crate::build::word_with;
use crate::parts::MOST;
use crate::template::Template;
use crate::terms::expanded;
use crate::words::Words;
use loop_values::{is_free, replaced_within};
use m_ast::{Definition, PTerm, Role, Slot};
use m_places::Name;
use m_symbols::Symbols;
use std::alloc::{AllocError, Global};

/// Appends the definitions of one instance of a formula. `total` is the number of parts so far;
/// returns the number with these.
#[inline(never)]
pub(crate) fn take_instance(
    words: &Words<'_>,
    letters: &mut [Option<Name>],
    template: &Template<'_>,
    definitions: &mut Vec<Definition>,
    total: u64,
) -> Result<u64, ExpandFault>
    requires letters { length letters.old ≡ 256 }
    requires same { meaning template.now.term.now ≡ meaning template.now.formula.now.term }
    requires total { total ≤ MOST }
    ensures outcome { let these = definitions_at template.now.symbols.now template.now.formula.now template.now.formula.now.slot letters.old in
        Outcome ExpandFault.Memory result
        (λ after. IsTaken definitions.old.items definitions.new.items these (weighed these template.now.weight) total after)
        (λ fault. IsTooMuch (weighed these template.now.weight) total template.now.rule fault) }
    ensures letters { OnOk result (letters.new ≡ letters.old) }
{
    match template.formula.slot {
        Slot::Whole => take_definition(
            words,
            letters,
            template,
            Slot::Whole,
            None,
            definitions,
            total,
        ),
        Slot::Cell(k) => take_definition(
            words,
            letters,
            template,
            Slot::Cell(k),
            None,
            definitions,
            total,
        ),
        Slot::Every => take_every(words, letters, template, definitions, total),
    }
}

// A definition for each cell of the target, if it is a table.
fn take_every(
    words: &Words<'_>,
    letters: &mut [Option<Name>],
    template: &Template<'_>,
    definitions: &mut Vec<Definition>,
    total: u64,
) -> Result<u64, ExpandFault>
    requires letters { length letters.old ≡ 256 }
    requires same { meaning template.now.term.now ≡ meaning template.now.formula.now.term }
    requires total { total ≤ MOST }
    ensures outcome { let these = definitions_at template.now.symbols.now template.now.formula.now Slot.Every letters.old in
        Outcome ExpandFault.Memory result
        (λ after. IsTaken definitions.old.items definitions.new.items these (weighed these template.now.weight) total after)
        (λ fault. IsTooMuch (weighed these template.now.weight) total template.now.rule fault) }
    ensures letters { OnOk result (letters.new ≡ letters.old) }
{
    let target = &template.formula.target;
    match size_with(words.alloc, template.symbols, letters, target)? {
        None => take_definition(
            words,
            letters,
            template,
            Slot::Every,
            None,
            definitions,
            total,
        ),
        Some(size) => take_cells(words, letters, template, size, definitions, total),
    }
}

// A definition for each cell of a table with this many cells.
fn take_cells(
    words: &Words<'_>,
    letters: &mut [Option<Name>],
    template: &Template<'_>,
    size: u32,
    definitions: &mut Vec<Definition>,
    total: u64,
) -> Result<u64, ExpandFault>
    requires letters { length letters.old ≡ 256 }
    requires same { meaning template.now.term.now ≡ meaning template.now.formula.now.term }
    requires total { total ≤ MOST }
    ensures outcome { let these = map (defined_cell template.now.formula.now letters.old) (range_with_len 0 size) in
        Outcome ExpandFault.Memory result
        (λ after. IsTaken definitions.old.items definitions.new.items these (weighed these template.now.weight) total after)
        (λ fault. IsTooMuch (weighed these template.now.weight) total template.now.rule fault) }
    ensures letters { OnOk result (letters.new ≡ letters.old) }
{
    let mut count = total;
    for k in 0..size {
        count = take_definition(
            words,
            letters,
            template,
            Slot::Cell(k),
            Some(k),
            definitions,
            count,
        )?;
    }
    Ok(count)
}

// A definition of a formula, in which `X` is the number of a cell, if one is given.
fn take_definition(
    words: &Words<'_>,
    letters: &mut [Option<Name>],
    template: &Template<'_>,
    slot: Slot,
    cell: Option<u32>,
    definitions: &mut Vec<Definition>,
    total: u64,
) -> Result<u64, ExpandFault>
    requires letters { length letters.old ≡ 256 }
    requires same { meaning template.now.term.now ≡ meaning template.now.formula.now.term }
    requires total { total ≤ MOST }
    ensures outcome { let these = defined template.now.formula.now slot cell letters.old ∷ [] in
        Outcome ExpandFault.Memory result
        (λ after. IsTaken definitions.old.items definitions.new.items these (weighed these template.now.weight) total after)
        (λ fault. IsTooMuch (weighed these template.now.weight) total template.now.rule fault) }
    ensures letters { OnOk result (letters.new ≡ letters.old) }
{
    if total + template.weight > MOST {
        return Err(ExpandFault::TooManyParts(template.rule));
    }
    let formula = template.formula;
    let term = instance_term(words, letters, template, cell)?;
    let target = word_with(words, letters, &formula.target)?;
    definitions.push(Definition {
        target,
        slot,
        term,
        place: formula.place,
    })?;
    Ok(total + template.weight)
}

// The term of an instance.
fn instance_term(
    words: &Words<'_>,
    letters: &mut [Option<Name>],
    template: &Template<'_>,
    cell: Option<u32>,
) -> Result<PTerm, AllocError>
    requires letters { length letters.old ≡ 256 }
    requires same { meaning template.now.term.now ≡ meaning template.now.formula.now.term }
    ensures term { IfOk result (λ t. t ≡ expanded cell letters.old template.now.formula.now.term) }
    ensures letters { OnOk result (letters.new ≡ letters.old) }
{
    expanded(words, letters, cell, template.term)
}

// The size of the declared table that a word with letters names.
fn size_with(
    alloc: Global,
    symbols: &Symbols,
    letters: &[Option<Name>],
    word: &Name,
) -> Result<Option<u32>, AllocError>
    requires { length letters.now ≡ 256 }
    ensures { IfOk result (λ size. size ≡ table_size symbols.now (replaced letters.now word.now)) }
{
    if is_free(letters, word.bytes()) {
        return Ok(size_of(symbols, word.bytes()));
    }
    match replaced_within(alloc, letters, word.bytes(), symbols.longest())? {
        None => Ok(None),
        Some(name) => Ok(size_of(symbols, name.as_slice())),
    }
}

// The size of a declared table.
fn size_of(symbols: &Symbols, name: &[u8]) -> Option<u32>
    ensures { result ≡ table_size symbols.now name.now }
{
    match symbols.find(name) {
        None => None,
        Some(v) => match &symbols.variable(v).item.role {
            Role::Computed(size) => *size,
            Role::Input(_) => None,
            Role::Constant(_) => None,
        },
    }
}
