//! The head of a rule or a verification.
ghost use Rattle.std.specs.Prelude.{◌≡◌, ◌<◌, ◌≤◌, length, OnOk};
ghost use Rattle.m_items.specs.inner.DeclarationReading.{Gives};
ghost use Rattle.m_items.specs.inner.RuleReading.{behind_words, head_at};

use crate::cursor::ItemCursor;
use crate::item_fault::ItemFault;
use crate::lists::applications;
use m_lexer::{Key, Sign};
use m_places::{Name, Place, Seq};
use std::alloc::Global;

/// The part before the formulas or checks.
#[derive(Drop)]
pub struct Head {
    /// The number as spelled.
    pub number: Name,
    /// The place of the first token.
    pub place: Place,
    pub applications: Seq<Name>,
}

/// Takes the words before the number.
pub fn skip_words(cursor: &mut ItemCursor<'_>)
    ensures words { cursor.new ≡ behind_words cursor.old }
    ensures shorter { length cursor.new ≤ length cursor.old }
{
    'words: while let Some(_word) = cursor.take_word() {}
}

/// KEY { WORD } WHOLE ":" apps ";"
#[tactic(auto, unfolding(crate::specs::inner::RuleReading::head_at))]
pub fn read_head(alloc: Global, cursor: &mut ItemCursor<'_>, key: Key) -> Result<Head, ItemFault>
    ensures reads { Gives result (head_at key cursor.old) cursor.new }
    ensures shorter { OnOk result (length cursor.new < length cursor.old) }
{
    let Some(place) = cursor.take_key_place(key) else {
        return Err(ItemFault::NoItem);
    };
    skip_words(cursor);
    let Some(spelling) = cursor.take_whole() else {
        return Err(ItemFault::NoItem);
    };
    if !cursor.take_sign(Sign::Colon) {
        return Err(ItemFault::NoItem);
    }
    let applications = applications(alloc, cursor)?;
    if !cursor.take_sign(Sign::Semicolon) {
        return Err(ItemFault::NoItem);
    }
    let number = spelling.copy(alloc)?;
    Ok(Head {
        number,
        place,
        applications,
    })
}
