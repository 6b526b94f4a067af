//! The values of an index.
ghost use Rattle.std.specs.Prelude.{◌≡◌, ◌++◌, ◌+◌, ◌<◌, ◌≤◌, ◌^◌, IfOk, OnOk, IsTrue, length, map, min, replicate, slice_index};
ghost use Rattle.std.specs.Bool.{OnTrue};
ghost use Rattle.std.specs.List.{list_any};
ghost use Rattle.std.specs.Str.Parse.{digits_value};
ghost use Rattle.m_fixed.specs.Text.{is_digits, only_digits};
ghost use Rattle.loop_values.specs.declared.values.TheConstants.{MANY};
ghost use Rattle.loop_values.specs.Values as spec;

use itoa::Buffer;
use m_ast::{Index, Span};
use m_places::Name;
use m_places::limits::PARTS;
use std::alloc::{AllocError, Global};

/// One more than the maximal number of parts of a base, and thus too many for a loop too. Counts
/// saturate here.
pub const MANY: u64 = PARTS as u64 + 1;

/// The values of an index, in the order of the source: V, 1, 2 for `i = V, 1..2`. The only error is
/// out of memory.
pub fn index_values(alloc: Global, index: &Index) -> Result<Vec<Name>, AllocError>
    ensures { IfOk result (λ values. values.items ≡ spec.index_values index.now) }
{
    let mut values = Vec::new(alloc);
    for span in index.values.as_slice() {
        push_values(alloc, &mut values, span)?;
    }
    Ok(values)
}

/// The number of values of an index, or `MANY` if it is more.
pub fn index_count(index: &Index) -> u64
    ensures { result ≡ min (length (spec.index_values index.now)) MANY }
{
    let mut count = 0;
    for span in index.values.as_slice() {
        count = (count + span_count(span)).min(MANY);
    }
    count
}

/// Whether an index has a range without values.
pub fn has_bad_span(index: &Index) -> bool
    ensures { result ≡ list_any spec.is_bad_span index.now.values }
{
    for span in index.values.as_slice() {
        if is_bad_span(span) {
            return true;
        }
    }
    false
}

// Appends the values of a span.
fn push_values(alloc: Global, values: &mut Vec<Name>, span: &Span) -> Result<(), AllocError>
    ensures { OnOk result (values.new.items ≡ values.old.items ++ spec.span_values span.now) }
{
    let Some(to) = &span.to else {
        values.push(span.from.copy(alloc)?)?;
        return Ok(());
    };
    let from = span.from.bytes();
    let to = to.bytes();
    if is_whole(from) && is_whole(to) {
        push_numbers(alloc, values, from, to)
    } else if is_capital(from) && is_capital(to) {
        push_letters(alloc, values, from[0], to[0])
    } else {
        Ok(())
    }
}

fn push_numbers(
    alloc: Global,
    values: &mut Vec<Name>,
    from: &[u8],
    to: &[u8],
) -> Result<(), AllocError>
    requires low { IsTrue (only_digits from.now) }
    requires low_short { length from.now ≤ 9 }
    requires high { IsTrue (only_digits to.now) }
    requires high_short { length to.now ≤ 9 }
    ensures { OnOk result (values.new.items ≡ values.old.items ++ spec.numbers_between from.now to.now) }
{
    let low = number(from);
    let behind = number(to) + 1;
    for n in low..behind {
        values.push(number_word(alloc, from.len(), n)?)?;
    }
    Ok(())
}

fn push_letters(alloc: Global, values: &mut Vec<Name>, from: u8, to: u8) -> Result<(), AllocError>
    requires { to ≤ 90 }
    ensures { OnOk result (values.new.items ≡ values.old.items ++ map spec.letter_word (spec.from_to from to)) }
{
    for letter in from..to + 1 {
        values.push(Name::new(alloc, &[letter])?)?;
    }
    Ok(())
}

// The number of values of a span.
fn span_count(span: &Span) -> u64
    ensures count { result ≡ length (spec.span_values span.now) }
    ensures few { result ≤ 1000000000 }
{
    let Some(to) = &span.to else {
        return 1;
    };
    let from = span.from.bytes();
    let to = to.bytes();
    if is_whole(from) && is_whole(to) {
        numbers_count(from, to)
    } else if is_capital(from) && is_capital(to) {
        letters_count(from[0], to[0])
    } else {
        0
    }
}

fn numbers_count(from: &[u8], to: &[u8]) -> u64
    requires low { IsTrue (only_digits from.now) }
    requires low_short { length from.now ≤ 9 }
    requires high { IsTrue (only_digits to.now) }
    requires high_short { length to.now ≤ 9 }
    ensures count { result ≡ length (spec.numbers_between from.now to.now) }
    ensures few { result ≤ 1000000000 }
{
    (number(to) + 1).saturating_sub(number(from))
}

fn letters_count(from: u8, to: u8) -> u64
    requires { to ≤ 90 }
    ensures count { result ≡ length (map spec.letter_word (spec.from_to from to)) }
    ensures few { result ≤ 91 }
{
    (to + 1).saturating_sub(from) as u64
}

// Whether a span has no values.
fn is_bad_span(span: &Span) -> bool
    ensures { result ≡ spec.is_bad_span span.now }
{
    span_count(span) == 0
}

/// Whether a word consists of one digit or more.
pub fn is_digits(word: &[u8]) -> bool
    ensures { result ≡ is_digits word.now }
{
    only_digits(word) && word.len() > 0
}

fn only_digits(word: &[u8]) -> bool
    ensures { result ≡ only_digits word.now }
{
    word.iter().all(|byte| byte.is_ascii_digit())
}

// Whether a word consists of one to nine digits.
fn is_whole(word: &[u8]) -> bool
    ensures test { result ≡ spec.is_whole word.now }
    ensures short { OnTrue result (length word.now ≤ 9) }
    ensures digits { OnTrue result (IsTrue (only_digits word.now)) }
{
    is_digits(word) && word.len() <= 9
}

// Whether a word is one letter from A to Z.
fn is_capital(word: &[u8]) -> bool
    ensures test { result ≡ spec.is_capital word.now }
    ensures one { OnTrue result ((length word.now ≡ 1) × (slice_index word.now 0 ≤ 90)) }
{
    match word {
        [letter] => *letter >= b'A' && *letter <= b'Z',
        _ => false,
    }
}

/// The number that at most twelve digits denote.
pub fn number(word: &[u8]) -> u64
    requires digits { IsTrue (only_digits word.now) }
    requires short { length word.now ≤ 12 }
    ensures value { result ≡ digits_value 10 word.now }
    ensures below { result < 10 ^ length word.now }
{
    let mut number = 0;
    for byte in word {
        number = number * 10 + (*byte - b'0') as u64;
    }
    number
}

// A number, padded with zeros to at least `width` digits.
fn number_word(alloc: Global, width: usize, n: u64) -> Result<Name, AllocError>
    ensures { IfOk result (λ word. word ≡ spec.number_word width n) }
{
    let mut buffer = Buffer::new();
    let text = buffer.format(n).as_bytes();
    let mut word = Vec::new(alloc);
    if text.len() < width {
        push_zeros(&mut word, width - text.len())?;
    }
    word.extend_from_slice(text)?;
    Name::new(alloc, word.as_slice())
}

fn push_zeros(word: &mut Vec<u8>, count: usize) -> Result<(), AllocError>
    ensures { OnOk result (word.new.items ≡ word.old.items ++ replicate count 48) }
{
    for _ in 0..count {
        word.push(b'0')?;
    }
    Ok(())
}
