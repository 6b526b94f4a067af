//! Lists of items.
ghost use Rattle.std.specs.Prelude.{◌≡◌, ◌<◌, ◌≤◌, [], length, IfOk, OnOk, IfSome};
ghost use Rattle.m_items.specs.inner.DeclarationReading.{Gives};
ghost use Rattle.m_items.specs.inner.RuleReading.{GivesOne};
ghost use Rattle.m_items.specs.inner.Reading.{item_at, items_at};

use crate::cursor::ItemCursor;
use crate::declarations::declaration;
use crate::item_fault::ItemFault;
use crate::rule::read_rule;
use crate::verification::read_verification;
use m_ast::Item;
use m_lexer::Key;
use std::alloc::{AllocError, Global};

// An item.
#[tactic(auto, unfolding(crate::specs::inner::Reading::item_at))]
fn read_item(alloc: Global, cursor: &mut ItemCursor<'_>) -> Result<Item, ItemFault>
    ensures reads { Gives result (item_at cursor.old) cursor.new }
    ensures shorter { OnOk result (length cursor.new < length cursor.old) }
{
    if cursor.is_at_key(Key::Regle) {
        let rule = read_rule(alloc, cursor)?;
        return Ok(Item::Rule(rule));
    }
    if cursor.is_at_key(Key::Verif) {
        let verification = read_verification(alloc, cursor)?;
        return Ok(Item::Verif(verification));
    }
    declaration(alloc, cursor)
}

// The item at the cursor, or `None` with the cursor unchanged.
fn try_item(alloc: Global, cursor: &mut ItemCursor<'_>) -> Result<Option<Item>, AllocError>
    ensures reads { GivesOne result (item_at cursor.old) cursor.old cursor.new }
    ensures shorter { IfOk result (λ o. IfSome o (λ i. length cursor.new < length cursor.old)) }
{
    let mut ahead = ItemCursor::new(cursor.left());
    match read_item(alloc, &mut ahead) {
        Ok(item) => {
            *cursor = ahead;
            Ok(Some(item))
        }
        Err(ItemFault::NoItem) => Ok(None),
        Err(ItemFault::Memory) => Err(AllocError),
    }
}

/// Every item that follows. The cursor stops before the first token that belongs to none.
#[tactic(auto, unfolding(crate::specs::inner::Reading::items_at))]
pub fn read_items(alloc: Global, cursor: &mut ItemCursor<'_>) -> Result<Vec<Item>, AllocError>
    ensures { IfOk result (λ v. items_at cursor.old ≡ (v.items, cursor.new)) }
{
    let mut items = Vec::new(alloc);
    'items: while let Some(item) = try_item(alloc, cursor)? {
        items.push(item)?;
    }
    Ok(items)
}
