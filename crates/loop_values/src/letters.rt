//! Substitution of letters.
ghost use Rattle.std.specs.Prelude.{◌≡◌, ◌<◌, ◌++◌, ℕ, List, IfOk, OnOk, MatchOption, length};
ghost use Rattle.std.specs.Bool.{OnTrue};
ghost use Rattle.m_ast.specs.PlainNames.{spelled};
ghost use Rattle.loop_values.specs.Letters as spec;
ghost use Rattle.loop_values.specs.inner.Bound.{bound};

use m_places::Name;
use std::alloc::{AllocError, Global};

/// The bindings outside of all loops: no letter is bound. The list has an element for each byte.
pub fn no_letters(alloc: Global) -> Result<Vec<Option<Name>>, AllocError>
    ensures { IfOk result (λ letters. letters.items ≡ spec.no_letters) }
{
    let mut letters = Vec::with_capacity(alloc, 256)?;
    for _ in 0..256usize {
        letters.push(None)?;
    }
    Ok(letters)
}

/// Whether a word has no bound letter, so that it is the same in each instance. Takes no memory.
pub fn is_free(letters: &[Option<Name>], word: &[u8]) -> bool
    requires { length letters.now ≡ 256 }
    ensures { OnTrue result (spec.replaced letters.now word.now ≡ word.now) }
{
    for byte in word {
        if letters[*byte as usize].is_some() {
            return false;
        }
    }
    true
}

/// The word with each bound letter replaced by its value, or `None` if that has more than `most`
/// bytes. It takes memory for `most` bytes and one value, however many bytes it would have.
pub fn replaced_within(
    alloc: Global,
    letters: &[Option<Name>],
    word: &[u8],
    most: usize,
) -> Result<Option<Vec<u8>>, AllocError>
    requires { length letters.now ≡ 256 }
    ensures { IfOk result (λ bytes. MatchOption bytes (most < length (spec.replaced letters.now word.now))
        (λ bytes. bytes.items ≡ spec.replaced letters.now word.now)) }
{
    let mut bytes = Vec::new(alloc);
    for byte in word {
        push_replaced(&mut bytes, letters, *byte)?;
        if bytes.len() > most {
            return Ok(None);
        }
    }
    Ok(Some(bytes))
}

/// The letters that are bound, with their values, in order. The only error is out of memory.
pub fn bound_values(alloc: Global, letters: &[Option<Name>]) -> Result<Vec<(u8, Name)>, AllocError>
    requires { length letters.now ≡ 256 }
    ensures { IfOk result (λ values. (word : List ℕ) → spelled values.items word ≡ spec.replaced letters.now word) }
{
    let mut values = Vec::new(alloc);
    for letter in 0..256usize {
        push_bound(alloc, &mut values, letter as u8, &letters[letter])?;
    }
    Ok(values)
}

// Appends a letter with its value, if it is bound.
fn push_bound(
    alloc: Global,
    values: &mut Vec<(u8, Name)>,
    letter: u8,
    value: &Option<Name>,
) -> Result<(), AllocError>
    ensures { OnOk result (values.new.items ≡ values.old.items ++ bound letter value.now) }
{
    if let Some(value) = value {
        values.push((letter, value.copy(alloc)?))?;
    }
    Ok(())
}

// Appends the replacement of a byte.
fn push_replaced(bytes: &mut Vec<u8>, letters: &[Option<Name>], byte: u8) -> Result<(), AllocError>
    requires { length letters.now ≡ 256 }
    ensures { OnOk result (bytes.new.items ≡ bytes.old.items ++ spec.byte_replaced letters.now byte) }
{
    match &letters[byte as usize] {
        Some(value) => bytes.extend_from_slice(value.bytes())?,
        None => bytes.push(byte)?,
    }
    Ok(())
}
