//! The slots that code uses, in the order of their first use.
ghost use Rattle.std.specs.Prelude.{◌≡◌, ◌<◌, ◌⊎◌, ◌++◌, ◌∷◌, [], length, slice_index, IfOk, OnOk, OnErr, IfSome, IfNone};
ghost use Rattle.reg_machine.specs.inner.Packed.{AreDistinct, IsAmong};

use std::alloc::{AllocError, Global};
use std::collections::BTreeMap;
use std::marker::Model;

/// The used slots, each numbered by its place in the list. So memory for slots grows with their
/// number, not with the greatest slot number. Contracts see them as the list of the slots.
#[derive(Drop)]
pub struct UsedSlots {
    numbers: BTreeMap<u32, u32>,
    used: Vec<u32>,
}

impl Model for UsedSlots {
    ghost use Rattle.std.specs.Prelude.{List, ℕ};
    ghost use Rattle.reg_machine.specs.inner.Packed.{IsNumbered};

    ghost Value = { List ℕ };

    ghost view = { λ s. s.used.items };

    ghost invariant = { λ s. IsNumbered s.numbers s.used.items };
}

impl UsedSlots {
    pub fn new(alloc: Global) -> UsedSlots
        ensures { result ≡ [] }
    {
        UsedSlots {
            numbers: BTreeMap::new(alloc),
            used: Vec::new(alloc),
        }
    }

    /// The place of a slot, if it is used.
    pub fn find(&self, slot: u32) -> Option<u32>
        ensures found { IfSome result (λ d. (d < length self.now) × (slice_index self.now d ≡ slot)) }
        ensures absent { IfNone result (IsAmong slot self.now → ⊥) }
    {
        self.numbers.get(&slot).copied()
    }

    /// The place of a slot, which is appended if it wasn't used. The only error is running out of
    /// memory, and then nothing changes.
    pub fn number(&mut self, slot: u32) -> Result<u32, AllocError>
        requires few { length self.old < 4294967295 }
        ensures place { IfOk result (λ d. (d < length self.new) × (slice_index self.new d ≡ slot)) }
        ensures grows { IfOk result (λ _. (self.new ≡ self.old) ⊎ (self.new ≡ self.old ++ slot ∷ [])) }
        ensures err { OnErr result (self.new ≡ self.old) }
    {
        match self.find(slot) {
            Some(number) => Ok(number),
            None => self.add(slot),
        }
    }

    // Appends a slot.
    fn add(&mut self, slot: u32) -> Result<u32, AllocError>
        requires few { length self.old < 4294967295 }
        requires away { IsAmong slot self.old → ⊥ }
        ensures place { IfOk result (λ d. d ≡ length self.old) }
        ensures grows { OnOk result (self.new ≡ self.old ++ slot ∷ []) }
        ensures err { OnErr result (self.new ≡ self.old) }
    {
        let number = self.used.len() as u32;
        self.used.reserve(1)?;
        self.numbers.insert(slot, number)?;
        self.used.push_reserved(slot);
        Ok(number)
    }

    /// The slots, each once.
    pub fn into_vec(self) -> Vec<u32>
        ensures slots { result.items ≡ self }
        ensures distinct { AreDistinct result.items }
    {
        let UsedSlots { used, .. } = self;
        used
    }
}
