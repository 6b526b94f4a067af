//! Declarations of each kind.
ghost use Rattle.std.specs.Prelude.{◌≡◌, ◌<◌, length, OnOk};
ghost use Rattle.m_items.specs.inner.DeclarationReading.{Gives, application_at, chaining_at, named_at, declared_at, declaration_at};

use crate::cursor::ItemCursor;
use crate::error::read_error;
use crate::item_fault::ItemFault;
use crate::lists::applications;
use crate::variable::{read_computed, read_constant, read_input};
use m_ast::Item;
use m_lexer::{Key, Sign};
use m_places::{Name, Place};
use std::alloc::Global;

// WORD ";"
#[tactic(auto, unfolding(crate::specs::inner::DeclarationReading::application_at))]
fn read_application(cursor: &mut ItemCursor<'_>, place: Place) -> Result<Item, ItemFault>
    ensures reads { Gives result (application_at place cursor.old) cursor.new }
    ensures shorter { OnOk result (length cursor.new < length cursor.old) }
{
    let Some(_) = cursor.take_word() else {
        return Err(ItemFault::NoItem);
    };
    if !cursor.take_sign(Sign::Semicolon) {
        return Err(ItemFault::NoItem);
    }
    Ok(Item::Silent(place))
}

// WORD apps ";"
#[tactic(auto, unfolding(crate::specs::inner::DeclarationReading::chaining_at))]
fn read_chaining(
    alloc: Global,
    cursor: &mut ItemCursor<'_>,
    place: Place,
) -> Result<Item, ItemFault>
    ensures reads { Gives result (chaining_at place cursor.old) cursor.new }
    ensures shorter { OnOk result (length cursor.new < length cursor.old) }
{
    let Some(_) = cursor.take_word() else {
        return Err(ItemFault::NoItem);
    };
    let _names = applications(alloc, cursor)?;
    if !cursor.take_sign(Sign::Semicolon) {
        return Err(ItemFault::NoItem);
    }
    Ok(Item::Silent(place))
}

// The rest of a variable or an error, after its name and colon.
#[tactic(auto, unfolding(crate::specs::inner::DeclarationReading::named_at))]
fn read_named(
    alloc: Global,
    cursor: &mut ItemCursor<'_>,
    name: &Name,
    place: Place,
) -> Result<Item, ItemFault>
    ensures reads { Gives result (named_at (name.now, place) cursor.old) cursor.new }
    ensures shorter { OnOk result (length cursor.new < length cursor.old) }
{
    if cursor.take_key(Key::Saisie) {
        return read_input(alloc, cursor, name, place);
    }
    if cursor.take_key(Key::Const) {
        return read_constant(alloc, cursor, name, place);
    }
    if let Some(kind) = cursor.take_error_kind() {
        return read_error(alloc, cursor, name, place, kind);
    }
    read_computed(alloc, cursor, name, place)
}

// A variable or an error.
#[tactic(auto, unfolding(crate::specs::inner::DeclarationReading::declared_at))]
fn read_declared(alloc: Global, cursor: &mut ItemCursor<'_>) -> Result<Item, ItemFault>
    ensures reads { Gives result (declared_at cursor.old) cursor.new }
    ensures shorter { OnOk result (length cursor.new < length cursor.old) }
{
    let Some((name, place)) = cursor.take_name() else {
        return Err(ItemFault::NoItem);
    };
    if !cursor.take_sign(Sign::Colon) {
        return Err(ItemFault::NoItem);
    }
    read_named(alloc, cursor, name, place)
}

/// A variable, an error, or an `application` or `enchaineur` item. After an error the position of
/// the cursor is unspecified.
#[tactic(auto, unfolding(crate::specs::inner::DeclarationReading::declaration_at))]
pub fn declaration(alloc: Global, cursor: &mut ItemCursor<'_>) -> Result<Item, ItemFault>
    ensures reads { Gives result (declaration_at cursor.old) cursor.new }
    ensures shorter { OnOk result (length cursor.new < length cursor.old) }
{
    if let Some(place) = cursor.take_key_place(Key::Application) {
        return read_application(cursor, place);
    }
    if let Some(place) = cursor.take_key_place(Key::Enchaineur) {
        return read_chaining(alloc, cursor, place);
    }
    read_declared(alloc, cursor)
}
