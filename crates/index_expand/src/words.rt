//! Words of terms in an instance of a loop.
ghost use Rattle.std.specs.Prelude.{◌≡◌, IfOk, IfSome, length};
ghost use Rattle.std.specs.Bool.{OnTrue};
ghost use Rattle.loop_values.specs.Letters as spec;

use loop_values::{bound_values, is_free};
use m_ast::PlainName;
use m_places::Name;
use m_symbols::Symbols;
use std::alloc::{AllocError, Global};
use std::cell::Cell;

/// The most bytes of a name that isn't declared and is kept as its bytes: it takes no more memory
/// than as a word and the values of its letters.
const FEW: usize = 256;

/// The variables whose names words may be, and the allocator of the whole expansion.
#[derive(Drop)]
pub(crate) struct Words<'a> {
    pub(crate) alloc: Global,
    pub(crate) symbols: &'a Symbols,
    /// Whether an instance of a word was not the name of a variable. Then the resolution of names
    /// fails, so later instances need not be looked up here.
    pub(crate) missed: Cell<bool>,
}

/// The most bytes of an instance of a word that is written out.
pub(crate) fn most_bytes(words: &Words<'_>) -> usize {
    if words.missed.get() {
        FEW
    } else {
        words.symbols.longest()
    }
}

/// Whether a word has no bound letter, as far as it is looked through: a long one isn't, once the
/// resolution of names fails. Takes no memory.
pub(crate) fn is_free_in(words: &Words<'_>, letters: &[Option<Name>], word: &[u8]) -> bool
    requires { length letters.now ≡ 256 }
    ensures { OnTrue result (spec.replaced letters.now word.now ≡ word.now) }
{
    if words.missed.get() && word.len() > FEW {
        return false;
    }
    is_free(letters, word)
}

/// A word in an instance of a loop, given with its letters replaced.
///
/// The name of a variable shares the bytes of its declaration, and a longer name that isn't
/// declared is a word and the values of its letters. So however long names are, an instance takes
/// no more memory for them. The only error is out of memory.
pub(crate) fn named(
    words: &Words<'_>,
    letters: &[Option<Name>],
    word: &Name,
    replaced: &[u8],
) -> Result<PlainName, AllocError>
    requires letters { length letters.now ≡ 256 }
    requires replaced { replaced.now ≡ spec.replaced letters.now word.now }
    ensures { IfOk result (λ name. name ≡ spec.replaced letters.now word.now) }
{
    if !words.missed.get()
        && let Some(name) = declared(words.symbols, replaced)
    {
        return Ok(PlainName::whole(name.copy(words.alloc)?));
    }
    if replaced.len() <= FEW {
        words.missed.set(true);
        return Ok(PlainName::whole(Name::new(words.alloc, replaced)?));
    }
    instance(words, letters, word)
}

/// A word that isn't the name of a variable, as it is in the source, and the values of its letters.
/// The only error is out of memory.
pub(crate) fn instance(
    words: &Words<'_>,
    letters: &[Option<Name>],
    word: &Name,
) -> Result<PlainName, AllocError>
    requires { length letters.now ≡ 256 }
    ensures { IfOk result (λ name. name ≡ spec.replaced letters.now word.now) }
{
    words.missed.set(true);
    let values = bound_values(words.alloc, letters)?;
    PlainName::instance(words.alloc, word.copy(words.alloc)?, values)
}

/// A word without bound letters. It shares the bytes of the source's word, and is not looked up
/// here. The only error is out of memory.
pub(crate) fn same(words: &Words<'_>, word: &Name) -> Result<PlainName, AllocError>
    ensures { IfOk result (λ name. name ≡ word.now) }
{
    Ok(PlainName::whole(word.copy(words.alloc)?))
}

// The name of the variable with this name.
fn declared<'a>(symbols: &'a Symbols, name: &[u8]) -> Option<&'a Name>
    ensures { IfSome result (λ known. known.now ≡ name.now) }
{
    let number = symbols.find(name)?;
    let known = &symbols.variable(number).item.name;
    if known.bytes() == name {
        Some(known)
    } else {
        None
    }
}
