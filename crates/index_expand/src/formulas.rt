//! The definitions of each instance of a formula's loops.
ghost use Rattle.std.specs.Prelude.{◌≡◌, ◌+◌, ◌∷◌, ◌≤◌, IfSome, OnOk, length};
ghost use Rattle.std.specs.List.{flat_map};
ghost use Rattle.m_places.specs.Refusals.{Outcome};
ghost use Rattle.m_symbols.specs.TableSizes.{TablesHaveCells};
ghost use Rattle.m_symbols.specs.Declarations.{Declared};
ghost use Rattle.loop_values.specs.Headers.{IsSingle, instances};
ghost use Rattle.loop_values.specs.Letters.{bind, no_letters};
ghost use Rattle.index_expand.specs.Expansion.{definitions_at, formula_definitions};
ghost use Rattle.index_expand.specs.Faults.{formula_parts};
ghost use Rattle.index_expand.specs.inner.Meanings.{meaning};
ghost use Rattle.index_expand.specs.inner.Taken.{IsTaken, IsTooMuch, weighed};

use crate::ExpandFault;
use crate::definitions::take_instance;
use crate::joined::{has_nested, joined};
use crate::parts::{MOST, parts};
use crate::template::{Binding, Template};
use crate::words::Words;
use loop_values::{headers_count, index_count, index_values, kept_indexes, only_value};
use m_ast::{Definition, Formula, Index, Term};
use m_places::{Name, Place};
use m_symbols::Symbols;
use std::mem::replace;

/// Appends the definitions of a formula. `total` is the number of parts so far; returns the number
/// with these. `rule` is the place of the formula's rule. The parts of a definition are counted
/// before it is made.
pub(crate) fn take_formula(
    words: &Words<'_>,
    letters: &mut [Option<Name>],
    symbols: &Symbols,
    rule: Place,
    formula: &Formula,
    definitions: &mut Vec<Definition>,
    total: u64,
) -> Result<u64, ExpandFault>
    requires letters { letters.old ≡ no_letters }
    requires total { total ≤ MOST }
    requires tables { TablesHaveCells symbols.now }
    ensures outcome { Outcome ExpandFault.Memory result
        (λ after. IsTaken definitions.old.items definitions.new.items
        (formula_definitions symbols.now formula.now) (formula_parts symbols.now formula.now) total after)
        (λ fault. IsTooMuch (formula_parts symbols.now formula.now) total rule fault) }
    ensures letters { OnOk result (letters.new ≡ letters.old) }
{
    if let Some(fault) = refusal(rule, formula) {
        return Err(fault);
    }
    if has_nested(&formula.term) {
        let term = joined(words.alloc, &formula.term)?;
        take_from(
            words,
            letters,
            symbols,
            rule,
            formula,
            &term,
            definitions,
            total,
        )
    } else {
        let term = &formula.term;
        take_from(
            words,
            letters,
            symbols,
            rule,
            formula,
            term,
            definitions,
            total,
        )
    }
}

// The same with a term of the same meaning in place of the formula's term, for a formula whose
// instances don't exceed the maximal number of parts.
fn take_from(
    words: &Words<'_>,
    letters: &mut [Option<Name>],
    symbols: &Symbols,
    rule: Place,
    formula: &Formula,
    term: &Term,
    definitions: &mut Vec<Definition>,
    total: u64,
) -> Result<u64, ExpandFault>
    requires term { meaning term.now ≡ meaning formula.now.term }
    requires letters { letters.old ≡ no_letters }
    requires total { total ≤ MOST }
    ensures outcome { Outcome ExpandFault.Memory result
        (λ after. IsTaken definitions.old.items definitions.new.items
        (formula_definitions symbols.now formula.now) (formula_parts symbols.now formula.now) total after)
        (λ fault. IsTooMuch (formula_parts symbols.now formula.now) total rule fault) }
    ensures letters { OnOk result (letters.new ≡ letters.old) }
{
    let template = Template {
        symbols,
        rule,
        formula,
        term,
        weight: parts(&formula.term) + 1,
    };
    let indexes = kept_indexes(words.alloc, formula.loops.as_slice())?;
    take_instances(
        words,
        letters,
        &template,
        indexes.as_slice(),
        definitions,
        total,
    )
}

// The error of a formula with more instances than the maximal number of parts. Each instance gives
// at least one definition, since each table has a cell. So the other functions meet few indexes of
// two or more values.
fn refusal(rule: Place, formula: &Formula) -> Option<ExpandFault>
    ensures { IfSome result (λ fault. (declared : Declared) → TablesHaveCells declared → IsTooMuch (formula_parts declared formula.now) 0 rule fault) }
{
    if headers_count(formula.loops.as_slice()) <= MOST {
        None
    } else {
        Some(ExpandFault::TooManyParts(rule))
    }
}

// Appends the definitions of the instances of indexes.
#[cycle(take_instances)]
fn take_instances(
    words: &Words<'_>,
    letters: &mut [Option<Name>],
    template: &Template<'_>,
    indexes: &[Index],
    definitions: &mut Vec<Definition>,
    total: u64,
) -> Result<u64, ExpandFault>
    requires letters { length letters.old ≡ 256 }
    requires same { meaning template.now.term.now ≡ meaning template.now.formula.now.term }
    requires total { total ≤ MOST }
    ensures outcome { let these = flat_map (definitions_at template.now.symbols.now template.now.formula.now template.now.formula.now.slot)
        (instances indexes.now letters.old) in
        Outcome ExpandFault.Memory result
        (λ after. IsTaken definitions.old.items definitions.new.items these (weighed these template.now.weight) total after)
        (λ fault. IsTooMuch (weighed these template.now.weight) total template.now.rule fault) }
    ensures letters { OnOk result (letters.new ≡ letters.old) }
{
    match indexes {
        [] => take_instance(words, letters, template, definitions, total),
        [index, rest @ ..] => {
            if index_count(index) == 1 {
                take_single(words, letters, template, index, rest, definitions, total)
            } else {
                take_index(words, letters, template, index, rest, definitions, total)
            }
        }
    }
}

// The same with an outer index of one value.
#[cycle(take_instances)]
fn take_single(
    words: &Words<'_>,
    letters: &mut [Option<Name>],
    template: &Template<'_>,
    index: &Index,
    indexes: &[Index],
    definitions: &mut Vec<Definition>,
    total: u64,
) -> Result<u64, ExpandFault>
    requires letters { length letters.old ≡ 256 }
    requires same { meaning template.now.term.now ≡ meaning template.now.formula.now.term }
    requires total { total ≤ MOST }
    requires single { IsSingle index.now }
    ensures outcome { let these = flat_map (definitions_at template.now.symbols.now template.now.formula.now template.now.formula.now.slot)
        (instances (index.now ∷ indexes.now) letters.old) in
        Outcome ExpandFault.Memory result
        (λ after. IsTaken definitions.old.items definitions.new.items these (weighed these template.now.weight) total after)
        (λ fault. IsTooMuch (weighed these template.now.weight) total template.now.rule fault) }
    ensures letters { OnOk result (letters.new ≡ letters.old) }
{
    let value = only_value(words.alloc, index)?;
    let binding = Binding {
        letter: index.letter,
        value: &value,
    };
    take_bound(
        words,
        letters,
        template,
        &binding,
        indexes,
        definitions,
        total,
    )
}

// The same with an outer index.
#[cycle(take_instances)]
fn take_index(
    words: &Words<'_>,
    letters: &mut [Option<Name>],
    template: &Template<'_>,
    index: &Index,
    indexes: &[Index],
    definitions: &mut Vec<Definition>,
    total: u64,
) -> Result<u64, ExpandFault>
    requires letters { length letters.old ≡ 256 }
    requires same { meaning template.now.term.now ≡ meaning template.now.formula.now.term }
    requires total { total ≤ MOST }
    ensures outcome { let these = flat_map (definitions_at template.now.symbols.now template.now.formula.now template.now.formula.now.slot)
        (instances (index.now ∷ indexes.now) letters.old) in
        Outcome ExpandFault.Memory result
        (λ after. IsTaken definitions.old.items definitions.new.items these (weighed these template.now.weight) total after)
        (λ fault. IsTooMuch (weighed these template.now.weight) total template.now.rule fault) }
    ensures letters { OnOk result (letters.new ≡ letters.old) }
{
    let values = index_values(words.alloc, index)?;
    let mut count = total;
    for value in &values {
        let binding = Binding {
            letter: index.letter,
            value,
        };
        count = take_bound(
            words,
            letters,
            template,
            &binding,
            indexes,
            definitions,
            count,
        )?;
    }
    Ok(count)
}

// The same with a letter bound to a value. The previous binding is restored.
#[cycle(take_instances)]
fn take_bound(
    words: &Words<'_>,
    letters: &mut [Option<Name>],
    template: &Template<'_>,
    binding: &Binding<'_>,
    indexes: &[Index],
    definitions: &mut Vec<Definition>,
    total: u64,
) -> Result<u64, ExpandFault>
    requires letters { length letters.old ≡ 256 }
    requires same { meaning template.now.term.now ≡ meaning template.now.formula.now.term }
    requires total { total ≤ MOST }
    ensures outcome { let these = flat_map (definitions_at template.now.symbols.now template.now.formula.now template.now.formula.now.slot)
        (instances indexes.now (bind letters.old binding.now.letter binding.now.value.now)) in
        Outcome ExpandFault.Memory result
        (λ after. IsTaken definitions.old.items definitions.new.items these (weighed these template.now.weight) total after)
        (λ fault. IsTooMuch (weighed these template.now.weight) total template.now.rule fault) }
    ensures letters { OnOk result (letters.new ≡ letters.old) }
{
    let value = binding.value.copy(words.alloc)?;
    let outer = replace(&mut letters[binding.letter as usize], Some(value));
    let count = take_instances(words, letters, template, indexes, definitions, total)?;
    letters[binding.letter as usize] = outer;
    Ok(count)
}
