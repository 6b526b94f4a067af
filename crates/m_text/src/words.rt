//! Words and numbers, which have the same spelling in rules and drivers. Whether a number is too
//! great is checked in m_lexer: amounts are unknown here.

ghost use Rattle.std.specs.Prelude.{◌≤◌, ◌<◌, ◌↔◌, IsTrue, length, drop, slice_index, slice_range};
ghost use Rattle.m_text.specs.Bytes.{IsDigit, IsWordByte, RunsTo};
ghost use Rattle.m_text.specs.Words.{BeginsAt, IsNumber, IsWord, IsWordOrNumber, LongestOf};

use crate::runs::{digits_end, word_end};

/// The kind of a token that begins with a letter, a digit or `_`, with the position after it.
#[derive(Clone, Copy, Debug, PartialEq, Eq)]
pub enum WordOrNumber {
    /// Letters, digits and `_`, but not digits alone, as `1AJ`; it may be a reserved word.
    Word(usize),
    /// Digits, optionally with a point and digits, as `2.50`.
    Number(usize),
}

/// Whether a text is a word: one or more letters, digits and `_`, but not digits alone. It may be a
/// reserved word. Takes no memory.
///
/// `iliad`, `1AJ` and `regle` are words; `2020`, `a-b` and the empty text are none.
pub fn is_word(text: &[u8]) -> bool
    ensures { IsTrue result ↔ IsWord text.now }
{
    word_end(text, 0) == text.len() && digits_end(text, 0) < text.len()
}

/// The longest word or number at a position. Takes no memory.
///
/// `1AJ+2.50..3` has the word `1AJ` from position 0 to 3, and the number `2.50` from 4 to 8.
pub fn word_or_number(bytes: &[u8], from: usize) -> WordOrNumber
    requires more { from < length bytes.now }
    requires begins { IsWordByte (slice_index bytes.now from) }
    ensures { BeginsAt bytes.now from result }
{
    let end = word_end(bytes, from);
    let whole = digits_end(bytes, from);
    if whole < end {
        return WordOrNumber::Word(end);
    }
    WordOrNumber::Number(number_end(bytes, from, end))
}

// The end of a number whose whole part is between two positions: after its decimals, if a point and
// a digit follow.
fn number_end(bytes: &[u8], from: usize, whole: usize) -> usize
    requires some { from < whole }
    requires digits { RunsTo IsDigit bytes.now from whole }
    requires apart { RunsTo IsWordByte bytes.now from whole }
    ensures onward { from < result }
    ensures within { result ≤ length bytes.now }
    ensures number { IsNumber (slice_range bytes.now from result) }
    ensures longest { LongestOf IsWordOrNumber (drop from bytes.now) (slice_range bytes.now from result) (drop result bytes.now) }
{
    if whole < bytes.len() && bytes[whole] == b'.' {
        let end = digits_end(bytes, whole + 1);
        if whole + 1 < end {
            return end;
        }
    }
    whole
}
