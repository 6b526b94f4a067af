//! Headers of loops.
ghost use Rattle.std.specs.Prelude.{◌≡◌, IfOk};

use crate::copies::{Duplicate, copy_all};
use m_places::{Name, Place, Seq};
use std::alloc::{AllocError, Global};

/// Consecutive values of an index, as they are spelled: `08..10` is from `08` to `10`. A single value
/// has no other end.
#[derive(Drop)]
pub struct Span {
    pub from: Name,
    pub to: Option<Name>,
}

/// An index of a loop: a letter and the values that it takes, in the order of the source.
#[derive(Drop)]
pub struct Index {
    /// The letter, from a to z.
    pub letter: u8,
    /// The place of the letter.
    pub place: Place,
    pub values: Seq<Span>,
}

/// The header of a `pour` or a `somme`: its indexes, of which the first varies slowest.
#[derive(Drop)]
pub struct Header {
    /// The place of the first letter.
    pub place: Place,
    pub indexes: Seq<Index>,
}

impl Span {
    /// An equal span. Its only error is running out of memory.
    pub fn copy(&self, alloc: Global) -> Result<Span, AllocError>
        ensures { IfOk result (λ s. s ≡ self.now) }
    {
        let from = self.from.copy(alloc)?;
        let to = match &self.to {
            Some(to) => Some(to.copy(alloc)?),
            None => None,
        };
        Ok(Span { from, to })
    }
}

impl Index {
    /// An equal index. Its only error is running out of memory.
    pub fn copy(&self, alloc: Global) -> Result<Index, AllocError>
        ensures { IfOk result (λ i. i ≡ self.now) }
    {
        let values = copy_all(alloc, self.values.as_slice())?;
        Ok(Index {
            letter: self.letter,
            place: self.place,
            values,
        })
    }
}

impl Header {
    /// An equal header. Its only error is running out of memory.
    pub fn copy(&self, alloc: Global) -> Result<Header, AllocError>
        ensures { IfOk result (λ h. h ≡ self.now) }
    {
        let indexes = copy_all(alloc, self.indexes.as_slice())?;
        Ok(Header {
            place: self.place,
            indexes,
        })
    }
}

impl Duplicate for Span {
    fn duplicate(&self, alloc: Global) -> Result<Span, AllocError> {
        self.copy(alloc)
    }
}

impl Duplicate for Index {
    fn duplicate(&self, alloc: Global) -> Result<Index, AllocError> {
        self.copy(alloc)
    }
}

impl Duplicate for Header {
    fn duplicate(&self, alloc: Global) -> Result<Header, AllocError> {
        self.copy(alloc)
    }
}
