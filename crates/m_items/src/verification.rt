//! Verifications.
ghost use Rattle.std.specs.Prelude.{◌≡◌, ◌<◌, length, IfOk, OnOk, IfSome};
ghost use Rattle.m_items.specs.inner.DeclarationReading.{Gives, GivesBy};
ghost use Rattle.m_items.specs.inner.RuleReading.{GivesOne, error_at, check_at, verification_at, one_or_more_at};

use crate::cursor::ItemCursor;
use crate::expression::term;
use crate::head::{read_head, skip_words};
use crate::item_fault::ItemFault;
use m_ast::{CheckItem, VerifItem};
use m_lexer::{Key, Sign};
use m_places::{Name, Seq};
use std::alloc::{AllocError, Global};

// "alors" "erreur" WORD { WORD } ";"
#[tactic(auto, unfolding(crate::specs::inner::RuleReading::error_at))]
fn read_error(alloc: Global, cursor: &mut ItemCursor<'_>) -> Result<Name, ItemFault>
    ensures reads { Gives result (error_at cursor.old) cursor.new }
    ensures shorter { OnOk result (length cursor.new < length cursor.old) }
{
    if !cursor.take_key(Key::Alors) {
        return Err(ItemFault::NoItem);
    }
    if !cursor.take_key(Key::Erreur) {
        return Err(ItemFault::NoItem);
    }
    let Some(word) = cursor.take_word() else {
        return Err(ItemFault::NoItem);
    };
    skip_words(cursor);
    if !cursor.take_sign(Sign::Semicolon) {
        return Err(ItemFault::NoItem);
    }
    Ok(word.copy(alloc)?)
}

// "si" expr "alors" "erreur" WORD { WORD } ";"
#[tactic(auto, unfolding(crate::specs::inner::RuleReading::check_at))]
fn read_check(alloc: Global, cursor: &mut ItemCursor<'_>) -> Result<CheckItem, ItemFault>
    ensures reads { Gives result (check_at cursor.old) cursor.new }
    ensures shorter { OnOk result (length cursor.new < length cursor.old) }
{
    let Some(place) = cursor.take_key_place(Key::Si) else {
        return Err(ItemFault::NoItem);
    };
    let condition = term(alloc, cursor)?;
    let error = read_error(alloc, cursor)?;
    Ok(CheckItem {
        condition,
        error,
        place,
    })
}

// The check at the cursor, or `None` with the cursor unchanged.
fn try_check(alloc: Global, cursor: &mut ItemCursor<'_>) -> Result<Option<CheckItem>, AllocError>
    ensures reads { GivesOne result (check_at cursor.old) cursor.old cursor.new }
    ensures shorter { IfOk result (λ o. IfSome o (λ c. length cursor.new < length cursor.old)) }
{
    let mut ahead = ItemCursor::new(cursor.left());
    match read_check(alloc, &mut ahead) {
        Ok(check) => {
            *cursor = ahead;
            Ok(Some(check))
        }
        Err(ItemFault::NoItem) => Ok(None),
        Err(ItemFault::Memory) => Err(AllocError),
    }
}

// A check, and every further one that follows.
#[tactic(auto, unfolding(crate::specs::inner::RuleReading::one_or_more_at))]
fn read_checks(alloc: Global, cursor: &mut ItemCursor<'_>) -> Result<Vec<CheckItem>, ItemFault>
    ensures reads { GivesBy (λ v. v.items) result (one_or_more_at check_at cursor.old) cursor.new }
    ensures shorter { OnOk result (length cursor.new < length cursor.old) }
{
    let mut checks = Vec::new(alloc);
    let first = read_check(alloc, cursor)?;
    checks.push(first)?;
    'checks: while let Some(check) = try_check(alloc, cursor)? {
        checks.push(check)?;
    }
    Ok(checks)
}

/// A verification, with every check that follows its head. After an error the position of the
/// cursor is unspecified.
#[tactic(auto, unfolding(crate::specs::inner::RuleReading::verification_at))]
pub fn read_verification(alloc: Global, cursor: &mut ItemCursor<'_>) -> Result<VerifItem, ItemFault>
    ensures reads { Gives result (verification_at cursor.old) cursor.new }
    ensures shorter { OnOk result (length cursor.new < length cursor.old) }
{
    let head = read_head(alloc, cursor, Key::Verif)?;
    let checks = read_checks(alloc, cursor)?;
    Ok(VerifItem {
        number: head.number,
        place: head.place,
        applications: head.applications,
        checks: Seq::from_vec(checks),
    })
}
