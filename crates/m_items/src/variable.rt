//! Variables, after their name and colon.
ghost use Rattle.std.specs.Prelude.{◌≡◌, ◌<◌, ◌≤◌, length, Some, None, IfOk, OnOk, OnSome, MatchOption};
ghost use Rattle.m_ast.specs.declared.item.Item.TheVariants.{Variable};
ghost use Rattle.m_items.specs.DeclarationGrammar.{variable};
ghost use Rattle.m_items.specs.inner.DeclarationReading.{Gives, lists, type_at, end_at, cells_at, size_at, input_at, computed_at, constant_at};

use crate::attributes::{AttributeLists, read_attributes, take_signed};
use crate::cursor::ItemCursor;
use crate::item_fault::ItemFault;
use crate::whole::whole_value;
use m_ast::{Item, Role, VariableItem};
use m_lexer::{Key, Sign};
use m_places::{Name, Place, Seq};
use std::alloc::{AllocError, Global};

// [ "type" WORD ]
#[tactic(auto, unfolding(crate::specs::inner::DeclarationReading::type_at))]
fn read_type(alloc: Global, cursor: &mut ItemCursor<'_>) -> Result<Option<Name>, ItemFault>
    ensures reads { Gives result (type_at cursor.old) cursor.new }
    ensures no_longer { OnOk result (length cursor.new ≤ length cursor.old) }
{
    if !cursor.take_key(Key::TypeKey) {
        return Ok(None);
    }
    let Some(word) = cursor.take_word() else {
        return Err(ItemFault::NoItem);
    };
    Ok(Some(word.copy(alloc)?))
}

// ":" TEXT [ "type" WORD ] ";"
#[tactic(auto, unfolding(crate::specs::inner::DeclarationReading::end_at))]
fn read_end(alloc: Global, cursor: &mut ItemCursor<'_>) -> Result<Option<Name>, ItemFault>
    ensures reads { Gives result (end_at cursor.old) cursor.new }
    ensures shorter { OnOk result (length cursor.new < length cursor.old) }
{
    if !cursor.take_sign(Sign::Colon) {
        return Err(ItemFault::NoItem);
    }
    let Some(_) = cursor.take_text() else {
        return Err(ItemFault::NoItem);
    };
    let word = read_type(alloc, cursor)?;
    if !cursor.take_sign(Sign::Semicolon) {
        return Err(ItemFault::NoItem);
    }
    Ok(word)
}

// "[" WHOLE "]"
#[tactic(auto, unfolding(crate::specs::inner::DeclarationReading::cells_at))]
fn take_cells(cursor: &mut ItemCursor<'_>) -> Option<Option<u32>>
    ensures reads { MatchOption result (cells_at cursor.old ≡ None) (λ n. cells_at cursor.old ≡ Some (n, cursor.new)) }
    ensures shorter { OnSome result (length cursor.new < length cursor.old) }
{
    if !cursor.take_sign(Sign::OpenBracket) {
        return None;
    }
    let spelling = cursor.take_whole()?;
    if !cursor.take_sign(Sign::CloseBracket) {
        return None;
    }
    Some(Some(whole_value(spelling)))
}

// [ "tableau" "[" WHOLE "]" ]
#[tactic(auto, unfolding(crate::specs::inner::DeclarationReading::size_at))]
fn take_size(cursor: &mut ItemCursor<'_>) -> Option<Option<u32>>
    ensures reads { MatchOption result (size_at cursor.old ≡ None) (λ n. size_at cursor.old ≡ Some (n, cursor.new)) }
    ensures no_longer { OnSome result (length cursor.new ≤ length cursor.old) }
{
    if !cursor.take_key(Key::Tableau) {
        return Some(None);
    }
    take_cells(cursor)
}

// A variable of these parts.
fn variable(
    alloc: Global,
    name: &Name,
    place: Place,
    role: Role,
    attributes: AttributeLists,
    value_word: Option<Name>,
) -> Result<Item, AllocError>
    ensures { IfOk result (λ i. i ≡ Variable (variable (name.now, place) role (lists attributes) value_word)) }
{
    let name = name.copy(alloc)?;
    Ok(Item::Variable(VariableItem {
        name,
        place,
        role,
        words: Seq::from_vec(attributes.words),
        pairs: Seq::from_vec(attributes.pairs),
        value_word,
    }))
}

/// { attribute } "alias" WORD ":" TEXT [ "type" WORD ] ";"
#[tactic(auto, unfolding(crate::specs::inner::DeclarationReading::input_at))]
pub fn read_input(
    alloc: Global,
    cursor: &mut ItemCursor<'_>,
    name: &Name,
    place: Place,
) -> Result<Item, ItemFault>
    ensures reads { Gives result (input_at (name.now, place) cursor.old) cursor.new }
    ensures shorter { OnOk result (length cursor.new < length cursor.old) }
{
    let lists = read_attributes(alloc, cursor)?;
    if !cursor.take_key(Key::Alias) {
        return Err(ItemFault::NoItem);
    }
    let Some(code) = cursor.take_word() else {
        return Err(ItemFault::NoItem);
    };
    let value_word = read_end(alloc, cursor)?;
    let code = code.copy(alloc)?;
    Ok(variable(alloc, name, place, Role::Input(code), lists, value_word)?)
}

/// [ "tableau" "[" WHOLE "]" ] "calculee" { attribute } ":" TEXT [ "type" WORD ] ";"
#[tactic(auto, unfolding(crate::specs::inner::DeclarationReading::computed_at))]
pub fn read_computed(
    alloc: Global,
    cursor: &mut ItemCursor<'_>,
    name: &Name,
    place: Place,
) -> Result<Item, ItemFault>
    ensures reads { Gives result (computed_at (name.now, place) cursor.old) cursor.new }
    ensures shorter { OnOk result (length cursor.new < length cursor.old) }
{
    let Some(size) = take_size(cursor) else {
        return Err(ItemFault::NoItem);
    };
    if !cursor.take_key(Key::Calculee) {
        return Err(ItemFault::NoItem);
    }
    let lists = read_attributes(alloc, cursor)?;
    let value_word = read_end(alloc, cursor)?;
    Ok(variable(alloc, name, place, Role::Computed(size), lists, value_word)?)
}

/// "=" [ "-" ] NUMBER ";"
#[tactic(auto, unfolding(crate::specs::inner::DeclarationReading::constant_at))]
pub fn read_constant(
    alloc: Global,
    cursor: &mut ItemCursor<'_>,
    name: &Name,
    place: Place,
) -> Result<Item, ItemFault>
    ensures reads { Gives result (constant_at (name.now, place) cursor.old) cursor.new }
    ensures shorter { OnOk result (length cursor.new < length cursor.old) }
{
    if !cursor.take_sign(Sign::Equal) {
        return Err(ItemFault::NoItem);
    }
    let Some(amount) = take_signed(cursor) else {
        return Err(ItemFault::NoItem);
    };
    if !cursor.take_sign(Sign::Semicolon) {
        return Err(ItemFault::NoItem);
    }
    let lists = AttributeLists {
        words: Vec::new(alloc),
        pairs: Vec::new(alloc),
    };
    Ok(variable(alloc, name, place, Role::Constant(amount), lists, None)?)
}
