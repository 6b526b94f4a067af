//! Headers of loops.
ghost use Rattle.std.specs.Prelude.{◌≡◌, ◌<◌, ◌≤◌, [], length, IfOk, OnOk};
ghost use Rattle.m_terms.specs.inner.Reading.{Gives, GivesBy, span_at, values_at, places_at, assigned_at};
ghost use Rattle.m_terms.specs.inner.Reading.{walked_at, index_at, further_index, indexes_at, header_at};

use crate::cursor::{Cursor, Mark};
use crate::fault::TermFault;
use m_ast::{Header, Index, Span};
use m_lexer::{Key, Sign};
use m_places::{Name, Seq};
use std::alloc::Global;

// point [ ".." point ]
#[tactic(auto, unfolding(crate::specs::inner::Reading::span_at))]
fn read_span(alloc: Global, cursor: &mut Cursor<'_>) -> Result<Span, TermFault>
    ensures reads { Gives result (span_at cursor.old) cursor.new }
    ensures shorter { OnOk result (length cursor.new < length cursor.old) }
{
    let Some(first) = cursor.take_point() else {
        return Err(TermFault::NoTerm);
    };
    let mut last = first;
    if cursor.take(Mark::OfSign(Sign::Range)) {
        let Some(second) = cursor.take_point() else {
            return Err(TermFault::NoTerm);
        };
        last = second;
    }
    let from = Name::new(alloc, first)?;
    if first == last {
        return Ok(Span { from, to: None });
    }
    let to = Some(Name::new(alloc, last)?);
    Ok(Span { from, to })
}

// value { "," value }
#[tactic(auto, unfolding(crate::specs::inner::Reading::joined_at))]
fn read_values(alloc: Global, cursor: &mut Cursor<'_>) -> Result<Vec<Span>, TermFault>
    ensures reads { GivesBy (λ v. v.items) result (values_at cursor.old) cursor.new }
    ensures shorter { OnOk result (length cursor.new < length cursor.old) }
{
    let mut values = Vec::with_capacity(alloc, 1)?;
    let first = read_span(alloc, cursor)?;
    values.push(first)?;
    'values: while cursor.take(Mark::OfSign(Sign::Comma)) {
        let value = read_span(alloc, cursor)?;
        values.push(value)?;
    }
    Ok(values)
}

// values | "(" values ")"
#[tactic(auto, unfolding(crate::specs::inner::Reading::places_at))]
fn read_places(alloc: Global, cursor: &mut Cursor<'_>) -> Result<Vec<Span>, TermFault>
    ensures reads { GivesBy (λ v. v.items) result (places_at cursor.old) cursor.new }
    ensures shorter { OnOk result (length cursor.new < length cursor.old) }
{
    if !cursor.take(Mark::OfSign(Sign::OpenParen)) {
        return read_values(alloc, cursor);
    }
    let values = read_values(alloc, cursor)?;
    if !cursor.take(Mark::OfSign(Sign::CloseParen)) {
        return Err(TermFault::NoTerm);
    }
    Ok(values)
}

// LETTER "=" values
#[tactic(auto, unfolding(crate::specs::inner::Reading::assigned_at))]
fn read_assigned(alloc: Global, cursor: &mut Cursor<'_>) -> Result<Index, TermFault>
    ensures reads { Gives result (assigned_at cursor.old) cursor.new }
    ensures shorter { OnOk result (length cursor.new < length cursor.old) }
{
    let Some((letter, place)) = cursor.take_letter() else {
        return Err(TermFault::NoTerm);
    };
    if !cursor.take(Mark::OfSign(Sign::Equal)) {
        return Err(TermFault::NoTerm);
    }
    let values = Seq::from_vec(read_values(alloc, cursor)?);
    Ok(Index {
        letter,
        place,
        values,
    })
}

// "un" LETTER "dans" places
#[tactic(auto, unfolding(crate::specs::inner::Reading::walked_at))]
fn read_walked(alloc: Global, cursor: &mut Cursor<'_>) -> Result<Index, TermFault>
    ensures reads { Gives result (walked_at cursor.old) cursor.new }
    ensures shorter { OnOk result (length cursor.new < length cursor.old) }
{
    if !cursor.take(Mark::OfKey(Key::Un)) {
        return Err(TermFault::NoTerm);
    }
    let Some((letter, place)) = cursor.take_letter() else {
        return Err(TermFault::NoTerm);
    };
    if !cursor.take(Mark::OfKey(Key::Dans)) {
        return Err(TermFault::NoTerm);
    }
    let values = Seq::from_vec(read_places(alloc, cursor)?);
    Ok(Index {
        letter,
        place,
        values,
    })
}

// An index in either notation: with `un .. dans`, or with `=`.
fn read_index(alloc: Global, cursor: &mut Cursor<'_>, by_words: bool) -> Result<Index, TermFault>
    ensures reads { Gives result (index_at by_words cursor.old) cursor.new }
    ensures shorter { OnOk result (length cursor.new < length cursor.old) }
{
    if by_words {
        read_walked(alloc, cursor)
    } else {
        read_assigned(alloc, cursor)
    }
}

// The separator between two indexes.
fn further(by_words: bool) -> Mark
    ensures { result ≡ further_index by_words }
{
    if by_words {
        Mark::OfKey(Key::Et)
    } else {
        Mark::OfSign(Sign::Semicolon)
    }
}

// index { separator index }
#[tactic(auto, unfolding(crate::specs::inner::Reading::joined_at))]
fn read_indexes(
    alloc: Global,
    cursor: &mut Cursor<'_>,
    by_words: bool,
) -> Result<Vec<Index>, TermFault>
    ensures reads { GivesBy (λ v. v.items) result (indexes_at by_words cursor.old) cursor.new }
    ensures shorter { OnOk result (length cursor.new < length cursor.old) }
{
    let between = further(by_words);
    let mut indexes = Vec::with_capacity(alloc, 1)?;
    let first = read_index(alloc, cursor, by_words)?;
    indexes.push(first)?;
    'indexes: while cursor.take(between) {
        let index = read_index(alloc, cursor, by_words)?;
        indexes.push(index)?;
    }
    Ok(indexes)
}

/// A header, whatever follows it.
#[inline(never)]
#[tactic(auto, unfolding(crate::specs::inner::Reading::header_at))]
pub fn header(alloc: Global, cursor: &mut Cursor<'_>) -> Result<Header, TermFault>
    ensures reads { Gives result (header_at cursor.old) cursor.new }
    ensures shorter { OnOk result (length cursor.new < length cursor.old) }
{
    let by_words = cursor.is_at(Mark::OfKey(Key::Un));
    let indexes = read_indexes(alloc, cursor, by_words)?;
    let Some(first) = indexes.first() else {
        return Err(TermFault::NoTerm);
    };
    Ok(Header {
        place: first.place,
        indexes: Seq::from_vec(indexes),
    })
}
