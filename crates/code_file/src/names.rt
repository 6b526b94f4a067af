//! Tests for the words of code files.
ghost use Rattle.std.specs.Prelude.{◌≡◌, ◌↔◌, ◌<◌, ◌≤◌, IsTrue, length};
ghost use Rattle.std.specs.List.{list_all};
ghost use Rattle.m_text.specs.Words.{AreDigits};
ghost use Rattle.code_file.specs.Printable.{IsFreeWord, IsPlainName, IsCellName};
ghost use Rattle.code_file.specs.inner.Faces.{is_no_small, is_index};

use crate::cut::cut;
use crate::numbers::number;
use m_lexer::key_of;
use m_text::{is_word, whole_number};

/// Whether a text is one to nine digits.
pub fn are_few_digits(text: &[u8]) -> bool
    ensures { IsTrue result ↔ (AreDigits text.now × (length text.now ≤ 9)) }
{
    whole_number(text).is_some()
}

// Whether no byte is a letter from a to z.
fn has_no_small(text: &[u8]) -> bool
    ensures { result ≡ list_all is_no_small text.now }
{
    text.iter().all(|byte| *byte < 97 || 122 < *byte)
}

/// Whether a text is a word of M that isn't reserved.
pub fn is_free_word(text: &[u8]) -> bool
    ensures { IsTrue result ↔ IsFreeWord text.now }
{
    if text.is_empty() || !is_word(text) {
        return false;
    }
    key_of(text).is_none()
}

/// Whether a text is a plain name: a free word without a letter from a to z.
pub fn is_plain_name(text: &[u8]) -> bool
    ensures { IsTrue result ↔ IsPlainName text.now }
{
    is_free_word(text) && has_no_small(text)
}

// Whether a text can follow `[` in the name of a table's cell, as `12]` does.
fn is_index(text: &[u8]) -> bool
    ensures { result ≡ is_index text.now }
{
    match cut(text, b']') {
        Some((digits, behind)) => behind.is_empty() && number(digits, 1024).is_some(),
        None => false,
    }
}

/// Whether a text is a cell's name: a plain name, or one with an index, as `T[1]`.
pub fn is_cell_name(text: &[u8]) -> bool
    ensures { IsTrue result ↔ IsCellName text.now }
{
    if is_plain_name(text) {
        return true;
    }
    match cut(text, b'[') {
        Some((name, index)) => is_plain_name(name) && is_index(index),
        None => false,
    }
}
