ghost use Rattle.std.specs.Prelude.{◌≡◌, IfOk};

use crate::Name;
use std::alloc::{AllocError, Global};
use std::marker::Model;
use std::sync::Arc;

/// A name with several owners and one copy of its bytes, which may go to other threads. Contracts
/// see it as its bytes, like a `Name`.
#[derive(Drop)]
pub struct SharedName {
    name: Arc<Name, Global>,
}

impl Model for SharedName {
    ghost use Rattle.std.specs.Prelude.{List, ℕ};
    ghost use Rattle.std.specs.Arc.{arc_value};

    ghost Value = { List ℕ };

    ghost view = { λ s. arc_value s.name };
}

impl SharedName {
    /// A name that can be shared. Its only error is running out of memory.
    pub fn new(alloc: Global, name: Name) -> Result<SharedName, AllocError>
        ensures { IfOk result (λ s. s ≡ name) }
    {
        Ok(SharedName {
            name: Arc::new(alloc, name)?,
        })
    }

    /// The bytes of the name. Takes no memory.
    pub fn bytes(&self) -> &[u8]
        ensures { result.now ≡ self.now }
    {
        self.name.bytes()
    }

    /// The same name for one more owner. Takes no memory, unless the 63-bit count of owners is
    /// full: then it is a copy. Its only error is running out of memory.
    pub fn share(&self, alloc: Global) -> Result<SharedName, AllocError>
        ensures { IfOk result (λ s. s ≡ self.now) }
    {
        match self.name.clone() {
            Ok(name) => Ok(SharedName { name }),
            Err(_) => SharedName::new(alloc, self.name.copy(alloc)?),
        }
    }
}
