//! Declarations of variables.
ghost use Rattle.std.specs.Prelude.{◌≡◌, IfOk};

use crate::copies::{Duplicate, copy_all};
use m_fixed::Amount;
use m_places::{Name, Place, Seq};
use std::alloc::{AllocError, Global};

/// The source of a variable's value.
#[derive(Drop)]
pub enum Role {
    /// The household, by this code of the form.
    Input(Name),
    /// Rules. A table has this many cells.
    Computed(Option<u32>),
    /// The declaration.
    Constant(Amount),
}

/// The declaration of a variable.
#[derive(Drop)]
pub struct VariableItem {
    pub name: Name,
    /// The place of the name.
    pub place: Place,
    pub role: Role,
    /// The attributes without a number, as `restituee`, in order.
    pub words: Seq<Name>,
    /// The attributes with a number, as `classe = 0`, in order.
    pub pairs: Seq<(Name, Amount)>,
    /// The word after `type`.
    pub value_word: Option<Name>,
}

impl Role {
    /// An equal role. Its only error is running out of memory.
    pub fn copy(&self, alloc: Global) -> Result<Role, AllocError>
        ensures { IfOk result (λ r. r ≡ self.now) }
    {
        match self {
            Role::Input(code) => Ok(Role::Input(code.copy(alloc)?)),
            Role::Computed(size) => Ok(Role::Computed(*size)),
            Role::Constant(amount) => Ok(Role::Constant(*amount)),
        }
    }
}

impl VariableItem {
    /// An equal declaration. Its only error is running out of memory.
    pub fn copy(&self, alloc: Global) -> Result<VariableItem, AllocError>
        ensures { IfOk result (λ v. v ≡ self.now) }
    {
        let name = self.name.copy(alloc)?;
        let role = self.role.copy(alloc)?;
        let words = copy_all(alloc, self.words.as_slice())?;
        let pairs = copy_all(alloc, self.pairs.as_slice())?;
        let value_word = copied_word(alloc, &self.value_word)?;
        Ok(VariableItem {
            name,
            place: self.place,
            role,
            words,
            pairs,
            value_word,
        })
    }
}

fn copied_word(alloc: Global, word: &Option<Name>) -> Result<Option<Name>, AllocError>
    ensures { IfOk result (λ w. w ≡ word.now) }
{
    match word {
        Some(name) => Ok(Some(name.copy(alloc)?)),
        None => Ok(None),
    }
}

impl Duplicate for (Name, Amount) {
    fn duplicate(&self, alloc: Global) -> Result<(Name, Amount), AllocError> {
        Ok((self.0.copy(alloc)?, self.1))
    }
}
