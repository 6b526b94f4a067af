//! Attributes of variables.
ghost use Rattle.std.specs.Prelude.{◌≡◌, ◌<◌, ◌≤◌, ◌∷◌, [], ◌++◌, neg_ℤ, length, Some, None, MatchOption, OnSome, OnOk};
ghost use Rattle.m_items.specs.DeclarationGrammar.{word_without, pair_with};
ghost use Rattle.m_items.specs.inner.DeclarationReading.{GivesBy, amount_at, number_at, lists, lists_at, with_one_more};

use crate::cursor::ItemCursor;
use crate::item_fault::ItemFault;
use m_fixed::Amount;
use m_lexer::Sign;
use m_places::Name;
use std::alloc::{AllocError, Global};

/// Attributes in two lists: those without a number and those with one. Both keep the order, and
/// words that occur twice.
#[derive(Drop)]
pub struct AttributeLists {
    pub words: Vec<Name>,
    pub pairs: Vec<(Name, Amount)>,
}

impl AttributeLists {
    // Adds an attribute at the end of its list.
    fn push(&mut self, word: Name, amount: Option<Amount>) -> Result<(), AllocError>
        ensures { OnOk result (lists self.new ≡ with_one_more (lists self.old) word amount) }
    {
        match amount {
            Some(amount) => self.pairs.push((word, amount))?,
            None => self.words.push(word)?,
        }
        Ok(())
    }
}

// The amount with the opposite sign.
fn negated(amount: Amount) -> Amount
    ensures { result ≡ neg_ℤ amount }
{
    match Amount::new(-amount.millionths()) {
        Some(negated) => negated,
        None => amount,
    }
}

/// [ "-" ] NUMBER
#[tactic(auto, unfolding(crate::specs::inner::DeclarationReading::amount_at))]
pub fn take_signed(cursor: &mut ItemCursor<'_>) -> Option<Amount>
    ensures reads { MatchOption result (amount_at cursor.old ≡ None) (λ z. amount_at cursor.old ≡ Some (z, cursor.new)) }
    ensures shorter { OnSome result (length cursor.new < length cursor.old) }
{
    if !cursor.take_sign(Sign::Minus) {
        return cursor.take_amount();
    }
    let amount = cursor.take_amount()?;
    Some(negated(amount))
}

// [ "=" [ "-" ] NUMBER ]
#[tactic(auto, unfolding(crate::specs::inner::DeclarationReading::number_at))]
fn take_number(cursor: &mut ItemCursor<'_>) -> Option<Option<Amount>>
    ensures reads { MatchOption result (number_at cursor.old ≡ None) (λ z. number_at cursor.old ≡ Some (z, cursor.new)) }
    ensures no_longer { OnSome result (length cursor.new ≤ length cursor.old) }
{
    if !cursor.take_sign(Sign::Equal) {
        return Some(None);
    }
    let amount = take_signed(cursor)?;
    Some(Some(amount))
}

/// { WORD [ "=" [ "-" ] NUMBER ] }
pub fn read_attributes(
    alloc: Global,
    cursor: &mut ItemCursor<'_>,
) -> Result<AttributeLists, ItemFault>
    ensures reads { GivesBy lists result (lists_at cursor.old) cursor.new }
    ensures no_longer { OnOk result (length cursor.new ≤ length cursor.old) }
{
    let mut lists = AttributeLists {
        words: Vec::new(alloc),
        pairs: Vec::new(alloc),
    };
    'attributes: while let Some(word) = cursor.take_word() {
        let Some(amount) = take_number(cursor) else {
            return Err(ItemFault::NoItem);
        };
        let word = word.copy(alloc)?;
        lists.push(word, amount)?;
    }
    Ok(lists)
}
