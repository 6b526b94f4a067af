//! The expansion of the items of one application.
ghost use Rattle.std.specs.Prelude.{◌≡◌, ◌∷◌, ◌++◌, ◌≤◌, [], All, None, Some, IfOk, OnOk, filter, length, map};
ghost use Rattle.std.specs.List.{flat_map, list_any, sum_by};
ghost use Rattle.std.specs.Str.{bytes_eq};
ghost use Rattle.m_places.specs.Refusals.{Outcome};
ghost use Rattle.m_ast.specs.Whole.{IsWholeItem};
ghost use Rattle.m_symbols.specs.TableSizes.{TablesHaveCells};
ghost use Rattle.index_expand.specs.Plain.{IsPlain};
ghost use Rattle.loop_values.specs.Letters as spec;
ghost use Rattle.index_expand.specs.Expansion.{expansion, counts_in, formula_definitions, item_definitions, item_conditions, condition_of};
ghost use Rattle.index_expand.specs.Faults.{expand_fault, formula_parts, check_parts, item_parts, item_place, too_many};
ghost use Rattle.index_expand.specs.LoopFaults.{least, item_faults, formula_faults, check_faults};
ghost use Rattle.index_expand.specs.Terms.{expanded};
ghost use Rattle.index_expand.specs.inner.Taken.{IsTaken, IsTooMuch, AreTaken};

use crate::ExpandFault;
use crate::faults::{with_check, with_formula};
use crate::formulas::take_formula;
use crate::joined::{has_nested, joined};
use crate::parts::{MOST, parts};
use crate::terms::expanded;
use crate::words::Words;
use loop_values::no_letters;
use m_ast::{CheckItem, Condition, Definition, Formula, Item, PTerm, Plain, Term, VerifItem};
use m_places::{Name, Place, Seq, SharedName};
use m_symbols::Symbols;
use std::alloc::{AllocError, Global};
use std::cell::Cell;

/// The rules and verifications of an application without loops, or the error of the items.
///
/// Chained rules and items of other applications are ignored. The items must be whole, which the
/// parser of rule files ensures, and each table must have a cell, which `declare` ensures.
pub fn expand(
    alloc: Global,
    items: &[Item],
    application: &[u8],
    symbols: &Symbols,
) -> Result<Plain, ExpandFault>
    requires whole { All IsWholeItem items.now }
    requires tables { TablesHaveCells symbols.now }
    ensures outcome { Outcome ExpandFault.Memory result
        (λ plain. (expand_fault items.now application.now symbols.now ≡ None)
        × (plain ≡ expansion items.now application.now symbols.now))
        (λ fault. expand_fault items.now application.now symbols.now ≡ Some fault) }
    ensures plain { IfOk result (λ plain. IsPlain symbols.now plain) }
    ensures few { IfOk result (λ plain. length plain.conditions ≤ MOST) }
{
    if let Some(fault) = first_fault(items, application) {
        return Err(fault);
    }
    take_items(alloc, items, application, symbols)
}

// The error of loops and letters with the least place.
fn first_fault(items: &[Item], application: &[u8]) -> Option<ExpandFault>
    ensures { result ≡ least None (flat_map item_faults (filter (counts_in application.now) items.now)) }
{
    let mut first = None;
    for item in items {
        if counts_in(item, application) {
            first = with_item(first, item);
        }
    }
    first
}

fn with_item(first: Option<ExpandFault>, item: &Item) -> Option<ExpandFault>
    ensures { result ≡ least first (item_faults item.now) }
{
    match item {
        Item::Rule(rule) => with_formulas(first, rule.formulas.as_slice()),
        Item::Verif(verif) => with_checks(first, verif.checks.as_slice()),
        Item::Variable(_) => first,
        Item::Error(_) => first,
        Item::Silent(_) => first,
    }
}

fn with_formulas(first: Option<ExpandFault>, formulas: &[Formula]) -> Option<ExpandFault>
    ensures { result ≡ least first (flat_map formula_faults formulas.now) }
{
    let mut first = first;
    for formula in formulas {
        first = with_formula(first, formula);
    }
    first
}

fn with_checks(first: Option<ExpandFault>, checks: &[CheckItem]) -> Option<ExpandFault>
    ensures { result ≡ least first (flat_map check_faults checks.now) }
{
    let mut first = first;
    for check in checks {
        first = with_check(first, check);
    }
    first
}

// Whether an item belongs to the application and isn't a chained rule.
fn counts_in(item: &Item, application: &[u8]) -> bool
    ensures { result ≡ counts_in application.now item.now }
{
    match item {
        Item::Rule(rule) => !rule.chained && is_among(application, rule.applications.as_slice()),
        Item::Verif(verif) => is_among(application, verif.applications.as_slice()),
        Item::Variable(_) => false,
        Item::Error(_) => false,
        Item::Silent(_) => false,
    }
}

fn is_among(application: &[u8], applications: &[Name]) -> bool
    ensures { result ≡ list_any (bytes_eq application.now) applications.now }
{
    for name in applications {
        if application == name.bytes() {
            return true;
        }
    }
    false
}

// The instances of all items that count, unless they have too many parts.
fn take_items(
    alloc: Global,
    items: &[Item],
    application: &[u8],
    symbols: &Symbols,
) -> Result<Plain, ExpandFault>
    requires { TablesHaveCells symbols.now }
    ensures { Outcome ExpandFault.Memory result
        (λ plain. (too_many symbols.now 0 (filter (counts_in application.now) items.now) ≡ None)
        × (plain ≡ expansion items.now application.now symbols.now))
        (λ fault. too_many symbols.now 0 (filter (counts_in application.now) items.now) ≡ Some fault) }
{
    let words = Words {
        alloc,
        symbols,
        missed: Cell::new(false),
    };
    let mut letters = no_letters(alloc)?;
    let mut definitions = Vec::new(alloc);
    let mut conditions = Vec::new(alloc);
    take_each(
        &words,
        letters.as_mut_slice(),
        symbols,
        items,
        application,
        &mut definitions,
        &mut conditions,
    )?;
    Ok(Plain {
        definitions: Seq::from_vec(definitions),
        conditions: Seq::from_vec(conditions),
    })
}

fn take_each(
    words: &Words<'_>,
    letters: &mut [Option<Name>],
    symbols: &Symbols,
    items: &[Item],
    application: &[u8],
    definitions: &mut Vec<Definition>,
    conditions: &mut Vec<Condition>,
) -> Result<(), ExpandFault>
    requires letters { letters.old ≡ spec.no_letters }
    requires tables { TablesHaveCells symbols.now }
    ensures { let counted = filter (counts_in application.now) items.now in
        Outcome ExpandFault.Memory result
        (λ done. AreTaken definitions.old.items definitions.new.items (flat_map (item_definitions symbols.now) counted)
        conditions.old.items conditions.new.items (flat_map item_conditions counted)
        (too_many symbols.now 0 counted))
        (λ fault. too_many symbols.now 0 counted ≡ Some fault) }
{
    let mut count = 0;
    for item in items {
        if counts_in(item, application) {
            count = take_item(
                words,
                letters,
                symbols,
                item,
                definitions,
                conditions,
                count,
            )?;
        }
    }
    Ok(())
}

fn take_item(
    words: &Words<'_>,
    letters: &mut [Option<Name>],
    symbols: &Symbols,
    item: &Item,
    definitions: &mut Vec<Definition>,
    conditions: &mut Vec<Condition>,
    total: u64,
) -> Result<u64, ExpandFault>
    requires letters { letters.old ≡ spec.no_letters }
    requires total { total ≤ MOST }
    requires tables { TablesHaveCells symbols.now }
    ensures outcome { Outcome ExpandFault.Memory result
        (λ after. IsTaken definitions.old.items definitions.new.items (item_definitions symbols.now item.now) (item_parts symbols.now item.now) total after
        × (conditions.new.items ≡ conditions.old.items ++ item_conditions item.now))
        (λ fault. IsTooMuch (item_parts symbols.now item.now) total (item_place item.now) fault) }
    ensures letters { OnOk result (letters.new ≡ letters.old) }
{
    match item {
        Item::Rule(rule) => {
            take_formulas(
                words,
                letters,
                symbols,
                rule.place,
                rule.formulas.as_slice(),
                definitions,
                total,
            )
        }
        Item::Verif(verif) => take_checks(words, letters, verif, conditions, total),
        Item::Variable(_) => Ok(total),
        Item::Error(_) => Ok(total),
        Item::Silent(_) => Ok(total),
    }
}

fn take_formulas(
    words: &Words<'_>,
    letters: &mut [Option<Name>],
    symbols: &Symbols,
    rule: Place,
    formulas: &[Formula],
    definitions: &mut Vec<Definition>,
    total: u64,
) -> Result<u64, ExpandFault>
    requires letters { letters.old ≡ spec.no_letters }
    requires total { total ≤ MOST }
    requires tables { TablesHaveCells symbols.now }
    ensures outcome { Outcome ExpandFault.Memory result
        (λ after. IsTaken definitions.old.items definitions.new.items
        (flat_map (formula_definitions symbols.now) formulas.now) (sum_by (formula_parts symbols.now) formulas.now) total after)
        (λ fault. IsTooMuch (sum_by (formula_parts symbols.now) formulas.now) total rule fault) }
    ensures letters { OnOk result (letters.new ≡ letters.old) }
{
    let mut count = total;
    for formula in formulas {
        count = take_formula(words, letters, symbols, rule, formula, definitions, count)?;
    }
    Ok(count)
}

fn take_checks(
    words: &Words<'_>,
    letters: &mut [Option<Name>],
    verif: &VerifItem,
    conditions: &mut Vec<Condition>,
    total: u64,
) -> Result<u64, ExpandFault>
    requires letters { letters.old ≡ spec.no_letters }
    requires total { total ≤ MOST }
    ensures outcome { Outcome ExpandFault.Memory result
        (λ after. IsTaken conditions.old.items conditions.new.items
        (map (condition_of verif.now) verif.now.checks) (sum_by check_parts verif.now.checks) total after)
        (λ fault. IsTooMuch (sum_by check_parts verif.now.checks) total verif.now.place fault) }
    ensures letters { OnOk result (letters.new ≡ letters.old) }
{
    let number = SharedName::new(words.alloc, verif.number.copy(words.alloc)?)?;
    let mut count = total;
    for check in verif.checks.as_slice() {
        count = take_check(words, letters, verif, &number, check, conditions, count)?;
    }
    Ok(count)
}

fn take_check(
    words: &Words<'_>,
    letters: &mut [Option<Name>],
    verif: &VerifItem,
    number: &SharedName,
    check: &CheckItem,
    conditions: &mut Vec<Condition>,
    total: u64,
) -> Result<u64, ExpandFault>
    requires number { number.now ≡ verif.now.number }
    requires letters { letters.old ≡ spec.no_letters }
    requires total { total ≤ MOST }
    ensures outcome { Outcome ExpandFault.Memory result
        (λ after. IsTaken conditions.old.items conditions.new.items
        (condition_of verif.now check.now ∷ []) (check_parts check.now) total after)
        (λ fault. IsTooMuch (check_parts check.now) total verif.now.place fault) }
    ensures letters { OnOk result (letters.new ≡ letters.old) }
{
    let count = total + parts(&check.condition) + 1;
    if count > MOST {
        return Err(ExpandFault::TooManyParts(verif.place));
    }
    let term = expanded_check(words, letters, &check.condition)?;
    push_condition(words.alloc, number, check, term, conditions)?;
    Ok(count)
}

// The term of a condition with its loops expanded.
fn expanded_check(
    words: &Words<'_>,
    letters: &mut [Option<Name>],
    condition: &Term,
) -> Result<PTerm, AllocError>
    requires { letters.old ≡ spec.no_letters }
    ensures term { IfOk result (λ t. t ≡ expanded None spec.no_letters condition.now) }
    ensures letters { OnOk result (letters.new ≡ letters.old) }
{
    if has_nested(condition) {
        expanded_joined(words, letters, condition)
    } else {
        expanded(words, letters, None, condition)
    }
}

fn expanded_joined(
    words: &Words<'_>,
    letters: &mut [Option<Name>],
    condition: &Term,
) -> Result<PTerm, AllocError>
    requires { letters.old ≡ spec.no_letters }
    ensures term { IfOk result (λ t. t ≡ expanded None spec.no_letters condition.now) }
    ensures letters { OnOk result (letters.new ≡ letters.old) }
{
    let whole = joined(words.alloc, condition)?;
    expanded(words, letters, None, &whole)
}

fn push_condition(
    alloc: Global,
    number: &SharedName,
    check: &CheckItem,
    term: PTerm,
    conditions: &mut Vec<Condition>,
) -> Result<(), AllocError>
    ensures { OnOk result (conditions.new.items ≡ conditions.old.items
        ++ record { verif = number.now; error = check.now.error; term = term; place = check.now.place } ∷ []) }
{
    let number = number.share(alloc)?;
    let error = check.error.copy(alloc)?;
    conditions.push(Condition {
        verif: number,
        error,
        term,
        place: check.place,
    })?;
    Ok(())
}
