//! Error items, after their name and colon.
ghost use Rattle.std.specs.Prelude.{◌≡◌, ◌<◌, length, OnOk};
ghost use Rattle.m_items.specs.inner.DeclarationReading.{Gives, is_four_or_five, error_at};

use crate::cursor::ItemCursor;
use crate::item_fault::ItemFault;
use crate::lists::{Listed, read_list};
use m_ast::{ErrorItem, Item};
use m_lexer::Sign;
use m_places::{ErrorKind, Name, Place, Seq};
use std::alloc::Global;

fn is_four_or_five(count: usize) -> bool
    ensures { result ≡ is_four_or_five count }
{
    count == 4 || count == 5
}

/// ":" TEXT ":" TEXT ":" TEXT ":" TEXT [ ":" TEXT ] ";"
///
/// The texts are counted after the whole list is read.
#[tactic(auto, unfolding(crate::specs::inner::DeclarationReading::error_at))]
pub fn read_error(
    alloc: Global,
    cursor: &mut ItemCursor<'_>,
    name: &Name,
    place: Place,
    kind: ErrorKind,
) -> Result<Item, ItemFault>
    ensures reads { Gives result (error_at (name.now, place) kind cursor.old) cursor.new }
    ensures shorter { OnOk result (length cursor.new < length cursor.old) }
{
    if !cursor.take_sign(Sign::Colon) {
        return Err(ItemFault::NoItem);
    }
    let texts = read_list(alloc, cursor, Listed::Texts)?;
    if !cursor.take_sign(Sign::Semicolon) {
        return Err(ItemFault::NoItem);
    }
    if !is_four_or_five(texts.len()) {
        return Err(ItemFault::NoItem);
    }
    let name = name.copy(alloc)?;
    Ok(Item::Error(ErrorItem {
        name,
        place,
        kind,
        texts: Seq::from_vec(texts),
    }))
}
