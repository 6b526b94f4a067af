//! Lists of names and of texts.
ghost use Rattle.std.specs.Prelude.{◌≡◌, ◌<◌, length, Some, None, OnOk};
ghost use Rattle.m_lexer.specs.inner.Chains.{open_at};
ghost use Rattle.m_items.specs.inner.DeclarationReading.{Gives, GivesBy, between, part, list_at, applications_at};

use crate::cursor::ItemCursor;
use crate::item_fault::ItemFault;
use m_lexer::{Key, Sign};
use m_places::{Name, Seq};
use std::alloc::Global;

/// The kind of the elements.
#[derive(Clone, Copy)]
pub enum Listed {
    /// Words, with commas between them.
    Words,
    /// Texts, with colons between them.
    Texts,
}

// The separator.
fn between(listed: Listed) -> Sign
    ensures { result ≡ between listed }
{
    match listed {
        Listed::Words => Sign::Comma,
        Listed::Texts => Sign::Colon,
    }
}

// One element.
fn read_part(alloc: Global, cursor: &mut ItemCursor<'_>, listed: Listed) -> Result<Name, ItemFault>
    ensures reads { Gives result (open_at (part listed) cursor.old) cursor.new }
    ensures shorter { OnOk result (length cursor.new < length cursor.old) }
{
    let found = match listed {
        Listed::Words => cursor.take_word(),
        Listed::Texts => cursor.take_text(),
    };
    let Some(found) = found else {
        return Err(ItemFault::NoItem);
    };
    Ok(found.copy(alloc)?)
}

/// One element or more.
pub fn read_list(
    alloc: Global,
    cursor: &mut ItemCursor<'_>,
    listed: Listed,
) -> Result<Vec<Name>, ItemFault>
    ensures reads { GivesBy (λ v. v.items) result (list_at listed cursor.old) cursor.new }
    ensures shorter { OnOk result (length cursor.new < length cursor.old) }
{
    let sign = between(listed);
    let mut parts = Vec::with_capacity(alloc, 1)?;
    let first = read_part(alloc, cursor, listed)?;
    parts.push(first)?;
    'parts: while cursor.take_sign(sign) {
        let part = read_part(alloc, cursor, listed)?;
        parts.push(part)?;
    }
    Ok(parts)
}

/// "application" ":" WORD { "," WORD }: as many applications as follow. After an error the position
/// of the cursor is unspecified.
#[tactic(auto, unfolding(crate::specs::inner::DeclarationReading::applications_at))]
pub fn applications(alloc: Global, cursor: &mut ItemCursor<'_>) -> Result<Seq<Name>, ItemFault>
    ensures reads { Gives result (applications_at cursor.old) cursor.new }
    ensures shorter { OnOk result (length cursor.new < length cursor.old) }
{
    if !cursor.take_key(Key::Application) {
        return Err(ItemFault::NoItem);
    }
    if !cursor.take_sign(Sign::Colon) {
        return Err(ItemFault::NoItem);
    }
    let names = read_list(alloc, cursor, Listed::Words)?;
    Ok(Seq::from_vec(names))
}
