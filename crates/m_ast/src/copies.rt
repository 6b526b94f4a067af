//! Copies of lists.
ghost use Rattle.std.specs.Prelude.{◌≡◌, IfOk};

use m_places::{Name, Seq};
use std::alloc::{AllocError, Global};

/// Types with a fallible copy.
pub trait Duplicate: Sized {
    /// An equal value. Its only error is running out of memory.
    fn duplicate(&self, alloc: Global) -> Result<Self, AllocError>
        ensures { IfOk result (λ t. t ≡ self.now) };
}

impl Duplicate for Name {
    fn duplicate(&self, alloc: Global) -> Result<Name, AllocError> {
        self.copy(alloc)
    }
}

/// An equal list, with no more capacity than its length. Its only error is running out of memory.
pub fn copy_all<T: Duplicate + Drop>(alloc: Global, list: &[T]) -> Result<Seq<T>, AllocError>
    ensures { IfOk result (λ s. s ≡ list.now) }
{
    let mut copies = Vec::with_capacity(alloc, list.len())?;
    for element in list {
        copies.push(element.duplicate(alloc)?)?;
    }
    Ok(Seq::from_vec(copies))
}
