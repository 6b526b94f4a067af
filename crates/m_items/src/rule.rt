//! Rules.
ghost use Rattle.std.specs.Prelude.{◌≡◌, ◌<◌, ◌≤◌, length, OnOk};
ghost use Rattle.m_items.specs.inner.DeclarationReading.{Gives};
ghost use Rattle.m_items.specs.inner.RuleReading.{chaining_at, rule_at};

use crate::cursor::ItemCursor;
use crate::formula::read_formulas;
use crate::head::read_head;
use crate::item_fault::ItemFault;
use m_ast::RuleItem;
use m_lexer::{Key, Sign};
use m_places::Seq;
use std::alloc::Global;

// [ "enchaineur" ":" WORD ";" ]
#[tactic(auto, unfolding(crate::specs::inner::RuleReading::chaining_at))]
fn take_chaining(cursor: &mut ItemCursor<'_>) -> Result<bool, ItemFault>
    ensures reads { Gives result (chaining_at cursor.old) cursor.new }
    ensures shorter { OnOk result (length cursor.new ≤ length cursor.old) }
{
    if !cursor.take_key(Key::Enchaineur) {
        return Ok(false);
    }
    if !cursor.take_sign(Sign::Colon) {
        return Err(ItemFault::NoItem);
    }
    if cursor.take_word().is_none() {
        return Err(ItemFault::NoItem);
    }
    if !cursor.take_sign(Sign::Semicolon) {
        return Err(ItemFault::NoItem);
    }
    Ok(true)
}

/// A rule, with every formula that follows its head. After an error the position of the cursor is
/// unspecified.
#[tactic(auto, unfolding(crate::specs::inner::RuleReading::rule_at))]
pub fn read_rule(alloc: Global, cursor: &mut ItemCursor<'_>) -> Result<RuleItem, ItemFault>
    ensures reads { Gives result (rule_at cursor.old) cursor.new }
    ensures shorter { OnOk result (length cursor.new < length cursor.old) }
{
    let head = read_head(alloc, cursor, Key::Regle)?;
    let chained = take_chaining(cursor)?;
    let formulas = read_formulas(alloc, cursor)?;
    Ok(RuleItem {
        number: head.number,
        place: head.place,
        applications: head.applications,
        chained,
        formulas: Seq::from_vec(formulas),
    })
}
