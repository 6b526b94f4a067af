//! Formulas.
ghost use Rattle.std.specs.Prelude.{◌≡◌, ◌<◌, ◌≤◌, [], ◌∷◌, length, IfOk, OnOk, IfSome};
ghost use Rattle.m_items.specs.inner.DeclarationReading.{Gives, GivesBy};
ghost use Rattle.m_items.specs.inner.RuleReading.{GivesOne, loop_at, loops_at, index_at, slot_at, set_at, formula_at, one_or_more_at};

use crate::cursor::ItemCursor;
use crate::expression::{header, term};
use crate::item_fault::ItemFault;
use crate::whole::whole_value;
use m_ast::{Formula, Header, Slot, Term};
use m_lexer::{Key, Sign};
use m_places::Seq;
use std::alloc::{AllocError, Global};

// header ":"
#[tactic(auto, unfolding(crate::specs::inner::RuleReading::loop_at))]
fn read_loop(alloc: Global, cursor: &mut ItemCursor<'_>) -> Result<Header, ItemFault>
    ensures reads { Gives result (loop_at cursor.old) cursor.new }
    ensures shorter { OnOk result (length cursor.new < length cursor.old) }
{
    let header = header(alloc, cursor)?;
    if !cursor.take_sign(Sign::Colon) {
        return Err(ItemFault::NoItem);
    }
    Ok(header)
}

// { "pour" header ":" }
fn read_loops(alloc: Global, cursor: &mut ItemCursor<'_>) -> Result<Vec<Header>, ItemFault>
    ensures reads { GivesBy (λ v. v.items) result (loops_at cursor.old) cursor.new }
    ensures shorter { OnOk result (length cursor.new ≤ length cursor.old) }
{
    let mut loops = Vec::new(alloc);
    'loops: while cursor.take_key(Key::Pour) {
        let header = read_loop(alloc, cursor)?;
        loops.push(header)?;
    }
    Ok(loops)
}

// "X" | WHOLE
#[tactic(auto, unfolding(crate::specs::inner::RuleReading::index_at))]
fn take_index(cursor: &mut ItemCursor<'_>) -> Result<Slot, ItemFault>
    ensures reads { Gives result (index_at cursor.old) cursor.new }
    ensures shorter { OnOk result (length cursor.new < length cursor.old) }
{
    if cursor.take_key(Key::X) {
        return Ok(Slot::Every);
    }
    let Some(spelling) = cursor.take_whole() else {
        return Err(ItemFault::NoItem);
    };
    Ok(Slot::Cell(whole_value(spelling)))
}

// [ "[" ( "X" | WHOLE ) "]" ]
#[tactic(auto, unfolding(crate::specs::inner::RuleReading::slot_at))]
fn take_slot(cursor: &mut ItemCursor<'_>) -> Result<Slot, ItemFault>
    ensures reads { Gives result (slot_at cursor.old) cursor.new }
    ensures shorter { OnOk result (length cursor.new ≤ length cursor.old) }
{
    if !cursor.take_sign(Sign::OpenBracket) {
        return Ok(Slot::Whole);
    }
    let slot = take_index(cursor)?;
    if !cursor.take_sign(Sign::CloseBracket) {
        return Err(ItemFault::NoItem);
    }
    Ok(slot)
}

// "=" expr ";"
#[tactic(auto, unfolding(crate::specs::inner::RuleReading::set_at))]
fn read_set(alloc: Global, cursor: &mut ItemCursor<'_>) -> Result<Term, ItemFault>
    ensures reads { Gives result (set_at cursor.old) cursor.new }
    ensures shorter { OnOk result (length cursor.new < length cursor.old) }
{
    if !cursor.take_sign(Sign::Equal) {
        return Err(ItemFault::NoItem);
    }
    let term = term(alloc, cursor)?;
    if !cursor.take_sign(Sign::Semicolon) {
        return Err(ItemFault::NoItem);
    }
    Ok(term)
}

// { "pour" header ":" } target "=" expr ";"
#[tactic(auto, unfolding(crate::specs::inner::RuleReading::formula_at))]
fn read_formula(alloc: Global, cursor: &mut ItemCursor<'_>) -> Result<Formula, ItemFault>
    ensures reads { Gives result (formula_at cursor.old) cursor.new }
    ensures shorter { OnOk result (length cursor.new < length cursor.old) }
{
    let loops = read_loops(alloc, cursor)?;
    let Some((target, place)) = cursor.take_placed_word() else {
        return Err(ItemFault::NoItem);
    };
    let slot = take_slot(cursor)?;
    let term = read_set(alloc, cursor)?;
    let target = target.copy(alloc)?;
    Ok(Formula {
        loops: Seq::from_vec(loops),
        target,
        slot,
        term,
        place,
    })
}

// The formula at the cursor, or `None` with the cursor unchanged. It is read at a second cursor, so
// that a formula that doesn't parse ends the list without an error, and reading is linear.
fn try_formula(alloc: Global, cursor: &mut ItemCursor<'_>) -> Result<Option<Formula>, AllocError>
    ensures reads { GivesOne result (formula_at cursor.old) cursor.old cursor.new }
    ensures shorter { IfOk result (λ o. IfSome o (λ f. length cursor.new < length cursor.old)) }
{
    let mut ahead = ItemCursor::new(cursor.left());
    match read_formula(alloc, &mut ahead) {
        Ok(formula) => {
            *cursor = ahead;
            Ok(Some(formula))
        }
        Err(ItemFault::NoItem) => Ok(None),
        Err(ItemFault::Memory) => Err(AllocError),
    }
}

/// A formula, and every further one that follows.
#[tactic(auto, unfolding(crate::specs::inner::RuleReading::one_or_more_at))]
pub fn read_formulas(alloc: Global, cursor: &mut ItemCursor<'_>) -> Result<Vec<Formula>, ItemFault>
    ensures reads { GivesBy (λ v. v.items) result (one_or_more_at formula_at cursor.old) cursor.new }
    ensures shorter { OnOk result (length cursor.new < length cursor.old) }
{
    let mut formulas = Vec::new(alloc);
    let first = read_formula(alloc, cursor)?;
    formulas.push(first)?;
    'formulas: while let Some(formula) = try_formula(alloc, cursor)? {
        formulas.push(formula)?;
    }
    Ok(formulas)
}
