//! The scan of a file: a sequence of gaps and tokens.

ghost use Rattle.std.specs.Prelude.{◌≡◌, ◌≤◌, ◌<◌, ◌+◌, [], IfOk, IfSome, MatchOption, length};
ghost use Rattle.m_places.specs.Refusals.{Outcome};
ghost use Rattle.m_lexer.specs.declared.token.Kind.TheVariants as kinds;
ghost use Rattle.m_lexer.specs.declared.fault.LexFault.TheVariants.{Memory, NumberTooGreat};
ghost use Rattle.m_text.specs.Bytes.{IsWordByte, quote};
ghost use Rattle.m_text.specs.Words.{IsWord, IsNumber};
ghost use Rattle.m_lexer.specs.inner.Steps.{left, byte_at, IsPlaceIn, further, GoesOn, BeginsGap, TokenBetween, NoSign};
ghost use Rattle.m_lexer.specs.Tokens.{Lexes, FirstFault, IsTooGreat, Spells, start_of};

use crate::fault::LexFault;
use crate::keys::key_of;
use crate::signs::{one_byte_sign, two_byte_sign};
use crate::token::{Kind, Sign, Token};
use m_fixed::{AmountFault, read_amount};
use m_places::limits::FILE_BYTES;
use m_places::{Name, Place};
use m_text::{WordOrNumber, is_word_byte, line_end, line_feeds, quote_end, word_or_number};
use std::alloc::{AllocError, Global};

/// The tokens of a rule file, or its first error; `file` is its number in the list.
///
/// `REV + 1` gives the word `REV` at byte 0, the sign `+` at byte 4 and the number 1 at byte 6, all
/// on line 1. `REV + "` gives `OpenString` at byte 6, line 1. Memory is taken only for the tokens
/// and their names.
pub fn lex(alloc: Global, bytes: &[u8], file: u32) -> Result<Vec<Token>, LexFault>
    requires { length bytes.now ≤ FILE_BYTES }
    ensures outcome { Outcome Memory result
        (λ tokens. Lexes (start_of file) bytes.now tokens.items)
        (FirstFault (start_of file) bytes.now) }
{
    let mut tokens = Vec::new(alloc);
    let mut place = after_gaps(
        bytes,
        Place {
            file,
            byte: 0,
            line: 1,
        },
    );
    while (place.byte as usize) < bytes.len() {
        let (kind, end) = kind_at(alloc, bytes, place)?;
        tokens.push(Token { kind, place })?;
        place = after_gaps(bytes, end);
    }
    Ok(tokens)
}

// The first position from here on at which no gap begins.
fn after_gaps(bytes: &[u8], from: Place) -> Place
    requires small { length bytes.now ≤ FILE_BYTES }
    requires here { IsPlaceIn bytes.now from }
    ensures there { IsPlaceIn bytes.now result }
    ensures onward { from.byte ≤ result.byte }
    ensures steps { GoesOn bytes.now from [] result }
    ensures no_gap { result.byte < length bytes.now → BeginsGap (byte_at bytes.now result) → ⊥ }
{
    let mut place = from;
    while let Some(next) = after_gap(bytes, place) {
        place = next;
    }
    place
}

// The position after the gap at this position, if there is one: one blank byte, or a comment.
fn after_gap(bytes: &[u8], place: Place) -> Option<Place>
    requires small { length bytes.now ≤ FILE_BYTES }
    requires here { IsPlaceIn bytes.now place }
    ensures there { IfSome result (IsPlaceIn bytes.now) }
    ensures onward { IfSome result (λ next. place.byte < next.byte) }
    ensures steps { MatchOption result
        (place.byte < length bytes.now → BeginsGap (byte_at bytes.now place) → ⊥)
        (λ next. GoesOn bytes.now place [] next) }
{
    let at = place.byte as usize;
    if at == bytes.len() {
        return None;
    }
    match bytes[at] {
        b'\n' => Some(further(place, at + 1, 1)),
        b' ' | b'\t' | b'\r' => Some(further(place, at + 1, 0)),
        b'#' => Some(further(place, line_end(bytes, at + 1), 0)),
        _ => None,
    }
}

// A later position, with the number of line feeds between the two.
fn further(place: Place, byte: usize, lines: usize) -> Place
    requires byte { byte ≤ FILE_BYTES }
    requires lines { place.line + lines ≤ byte + 1 }
    ensures { result ≡ further place byte lines }
{
    Place {
        file: place.file,
        byte: byte as u32,
        line: place.line + lines as u32,
    }
}

// The token at this position, and the position after it.
fn kind_at(alloc: Global, bytes: &[u8], place: Place) -> Result<(Kind, Place), LexFault>
    requires small { length bytes.now ≤ FILE_BYTES }
    requires here { IsPlaceIn bytes.now place }
    requires more { place.byte < length bytes.now }
    requires no_gap { BeginsGap (byte_at bytes.now place) → ⊥ }
    ensures there { IfOk result (λ r. IsPlaceIn bytes.now r.1) }
    ensures onward { IfOk result (λ r. place.byte < r.1.byte) }
    ensures outcome { Outcome Memory result
        (λ r. TokenBetween bytes.now place r.0 r.1)
        (FirstFault place (left bytes.now place)) }
{
    let first = bytes[place.byte as usize];
    if is_word_byte(first) {
        return word_or_number_at(alloc, bytes, place);
    }
    if first == b'"' {
        return text_at(alloc, bytes, place);
    }
    match sign_at(bytes, place) {
        Some((sign, end)) => Ok((Kind::Sign(sign), end)),
        None => Err(LexFault::BadByte(place)),
    }
}

// The word or number at this position.
fn word_or_number_at(alloc: Global, bytes: &[u8], place: Place) -> Result<(Kind, Place), LexFault>
    requires small { length bytes.now ≤ FILE_BYTES }
    requires here { IsPlaceIn bytes.now place }
    requires more { place.byte < length bytes.now }
    requires word_byte { IsWordByte (byte_at bytes.now place) }
    ensures there { IfOk result (λ r. IsPlaceIn bytes.now r.1) }
    ensures onward { IfOk result (λ r. place.byte < r.1.byte) }
    ensures outcome { Outcome Memory result
        (λ r. TokenBetween bytes.now place r.0 r.1)
        (FirstFault place (left bytes.now place)) }
{
    let from = place.byte as usize;
    match word_or_number(bytes, from) {
        WordOrNumber::Word(end) => {
            let kind = word_kind(alloc, &bytes[from..end])?;
            Ok((kind, further(place, end, 0)))
        }
        WordOrNumber::Number(end) => {
            let kind = number_kind(alloc, &bytes[from..end], place)?;
            Ok((kind, further(place, end, 0)))
        }
    }
}

// The kind of a word: reserved or not.
fn word_kind(alloc: Global, text: &[u8]) -> Result<Kind, AllocError>
    requires { IsWord text.now }
    ensures { IfOk result (Spells text.now) }
{
    match key_of(text) {
        Some(key) => Ok(Kind::Key(key)),
        None => Ok(Kind::Word(Name::new(alloc, text)?)),
    }
}

// The kind of a number: its amount and its spelling.
fn number_kind(alloc: Global, text: &[u8], place: Place) -> Result<Kind, LexFault>
    requires { IsNumber text.now }
    ensures outcome { Outcome Memory result
        (Spells text.now)
        (λ fault. (fault ≡ NumberTooGreat place) × IsTooGreat text.now) }
{
    match read_amount(text) {
        Ok(amount) => Ok(Kind::Number(amount, Name::new(alloc, text)?)),
        Err(_) => Err(LexFault::NumberTooGreat(place)),
    }
}

// The text whose opening quote is at this position.
fn text_at(alloc: Global, bytes: &[u8], place: Place) -> Result<(Kind, Place), LexFault>
    requires small { length bytes.now ≤ FILE_BYTES }
    requires here { IsPlaceIn bytes.now place }
    requires more { place.byte < length bytes.now }
    requires at_quote { byte_at bytes.now place ≡ quote }
    ensures there { IfOk result (λ r. IsPlaceIn bytes.now r.1) }
    ensures onward { IfOk result (λ r. place.byte < r.1.byte) }
    ensures outcome { Outcome Memory result
        (λ r. TokenBetween bytes.now place r.0 r.1)
        (FirstFault place (left bytes.now place)) }
{
    let from = place.byte as usize + 1;
    let end = quote_end(bytes, from);
    if end == bytes.len() {
        return Err(LexFault::OpenString(place));
    }
    let inside = &bytes[from..end];
    let kind = Kind::Text(Name::new(alloc, inside)?);
    Ok((kind, further(place, end + 1, line_feeds(inside))))
}

// The sign at this position; two bytes take precedence over one.
fn sign_at(bytes: &[u8], place: Place) -> Option<(Sign, Place)>
    requires small { length bytes.now ≤ FILE_BYTES }
    requires here { IsPlaceIn bytes.now place }
    requires more { place.byte < length bytes.now }
    ensures there { IfSome result (λ r. IsPlaceIn bytes.now r.1) }
    ensures onward { IfSome result (λ r. place.byte < r.1.byte) }
    ensures steps { MatchOption result
        (NoSign bytes.now place)
        (λ r. TokenBetween bytes.now place (kinds.Sign r.0) r.1) }
{
    let at = place.byte as usize;
    if at + 1 < bytes.len() {
        if let Some(sign) = two_byte_sign(bytes[at], bytes[at + 1]) {
            return Some((sign, further(place, at + 2, 0)));
        }
    }
    match one_byte_sign(bytes[at]) {
        Some(sign) => Some((sign, further(place, at + 1, 0))),
        None => None,
    }
}
