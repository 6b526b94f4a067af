//! Names in rules without loops.
ghost use Rattle.std.specs.Prelude.{◌≡◌, ◌++◌, IfOk, OnOk, option_copied};
ghost use Rattle.m_ast.specs.PlainNames as spec;

use m_places::Name;
use std::alloc::{AllocError, Global};
use std::marker::Model;

/// A name in rules without loops. Contracts see it as its bytes.
///
/// In an instance of a loop it may be kept as a word and the values of its letters, so that many
/// instances of a long word, or of a letter with a long value, take little memory.
#[derive(Drop)]
pub struct PlainName {
    form: Form,
}

#[derive(Drop)]
enum Form {
    Whole(Name),
    Instance(Box<WordInstance>),
}

/// A word, and the values of letters.
#[derive(Drop)]
struct WordInstance {
    word: Name,
    values: Vec<(u8, Name)>,
}

impl Model for PlainName {
    ghost use Rattle.std.specs.Prelude.{List, ℕ};
    ghost use Rattle.m_ast.specs.inner.PlainForms.{bytes_of};

    ghost Value = { List ℕ };

    ghost view = { λ n. bytes_of n.form };
}

impl PlainName {
    /// A name that is kept as its bytes. Takes no memory.
    pub fn whole(name: Name) -> PlainName
        ensures { result ≡ name }
    {
        PlainName {
            form: Form::Whole(name),
        }
    }

    /// A word in which each of these letters has a value: `REVi` and the pair of `i` and `12` is
    /// `REV12`. The only error is out of memory.
    pub fn instance(
        alloc: Global,
        word: Name,
        values: Vec<(u8, Name)>,
    ) -> Result<PlainName, AllocError>
        ensures { IfOk result (λ n. n ≡ spec.spelled values.items word) }
    {
        let instance = Box::new(alloc, WordInstance { word, values })?;
        Ok(PlainName {
            form: Form::Instance(instance),
        })
    }

    /// The name, written out. The only error is out of memory.
    pub fn written(&self, alloc: Global) -> Result<Name, AllocError>
        ensures { IfOk result (λ n. n ≡ self.now) }
    {
        match &self.form {
            Form::Whole(name) => name.copy(alloc),
            Form::Instance(instance) => {
                spelled(alloc, instance.values.as_slice(), instance.word.bytes())
            }
        }
    }
}

// A word with each byte replaced by its value.
fn spelled(alloc: Global, values: &[(u8, Name)], word: &[u8]) -> Result<Name, AllocError>
    ensures { IfOk result (λ n. n ≡ spec.spelled values.now word.now) }
{
    let mut bytes = Vec::with_capacity(alloc, spelled_length(values, word))?;
    for byte in word {
        push_spelled(&mut bytes, values, *byte)?;
    }
    Name::long(alloc, bytes)
}

// The number of bytes of that, or the greatest number if it is more. It is known before a byte is
// written, so a name for which there is no memory is rejected at once.
fn spelled_length(values: &[(u8, Name)], word: &[u8]) -> usize {
    let mut length = 0usize;
    for byte in word {
        length = length.saturating_add(byte_length(values, *byte));
    }
    length
}

// The number of bytes of the value of a byte, or 1.
fn byte_length(values: &[(u8, Name)], byte: u8) -> usize {
    match value_of(values, byte) {
        Some(value) => value.bytes().len(),
        None => 1,
    }
}

// Appends the value of a byte, or the byte.
fn push_spelled(bytes: &mut Vec<u8>, values: &[(u8, Name)], byte: u8) -> Result<(), AllocError>
    ensures { OnOk result (bytes.new.items ≡ bytes.old.items ++ spec.byte_spelled values.now byte) }
{
    match value_of(values, byte) {
        Some(value) => bytes.extend_from_slice(value.bytes())?,
        None => bytes.push(byte)?,
    }
    Ok(())
}

// The value of a byte.
fn value_of<'a>(values: &'a [(u8, Name)], byte: u8) -> Option<&'a Name>
    ensures { option_copied result ≡ spec.paired values.now byte }
{
    for (letter, value) in values {
        if *letter == byte {
            return Some(value);
        }
    }
    None
}
