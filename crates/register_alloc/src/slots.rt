//! Spill slots: the node that each slot holds. All calls take constant time, apart from extending the
//! index to the greatest node.

ghost use Rattle.std.specs.Prelude.{◌≡◌, ℕ, ◌<◌, ◌⊎◌, suc, length, IfSome, IfNone, IfOk, OnOk, Some, None, is_some, true, []};
ghost use Rattle.reg_machine.specs.Flow.{put};
ghost use Rattle.register_alloc.specs.inner.Tables.{look};

use std::alloc::{AllocError, Global};
use std::marker::Model;

/// The node of each slot, the slot of each node, and the free slots, which hold none.
#[derive(Drop)]
pub struct Slots {
    owners: Vec<Option<usize>>,
    places: Vec<Option<usize>>,
    free: Vec<usize>,
}

impl Model for Slots {
    ghost use Rattle.std.specs.Prelude.{ℕ, List, Option, length};
    ghost use Rattle.register_alloc.specs.inner.Tables.{look};
    ghost use Rattle.register_alloc.specs.inner.Index.{IsIndexed};

    ghost Value = { List (Option ℕ) };

    ghost view = { λ s. s.owners.items };

    ghost invariant = { λ s. IsIndexed (look s.owners.items) (look s.places.items) (length s.owners.items) s.free.items };
}

/// Extends a table to have an entry for a node.
fn reach(table: &mut Vec<Option<usize>>, x: usize) -> Result<(), AllocError>
    ensures same { (k : ℕ) → look table.new.items k ≡ look table.old.items k }
    ensures within { OnOk result (x < length table.new.items) }
{
    while table.len() <= x {
        table.push(None)?;
    }
    Ok(())
}

impl Slots {
    pub fn new(alloc: Global) -> Slots
        ensures { result ≡ [] }
    {
        Slots {
            owners: Vec::new(alloc),
            places: Vec::new(alloc),
            free: Vec::new(alloc),
        }
    }

    /// The number of slots.
    pub fn count(&self) -> usize
        ensures { result ≡ length self.now }
    {
        self.owners.len()
    }

    /// The slot of a node.
    pub fn find(&self, x: usize) -> Option<usize>
        ensures found { IfSome result (λ k. look self.now k ≡ Some x) }
        ensures absent { IfNone result ((k : ℕ) → look self.now k ≡ Some x → ⊥) }
    {
        match self.places.get(x) {
            Some(place) => *place,
            None => None,
        }
    }

    /// Puts a node into a free slot, or into a new one if none is free.
    pub fn occupy(&mut self, x: usize) -> Result<usize, AllocError>
        requires { (k : ℕ) → look self.old k ≡ Some x → ⊥ }
        ensures within { IfOk result (λ k. k < length self.new) }
        ensures empty { IfOk result (λ k. look self.old k ≡ None) }
        ensures set { IfOk result (λ k. (j : ℕ) → look self.new j ≡ put (look self.old) k (Some x) j) }
        ensures grows { IfOk result (λ _. (length self.new ≡ length self.old)
            ⊎ ((length self.new ≡ suc (length self.old))
            × ((k : ℕ) → k < length self.old → is_some (look self.old k) ≡ true))) }
    {
        reach(&mut self.places, x)?;
        match self.free.pop() {
            Some(slot) => {
                self.owners[slot] = Some(x);
                self.places[x] = Some(slot);
                Ok(slot)
            }
            None => {
                let slot = self.owners.len();
                self.owners.push(Some(x))?;
                self.places[x] = Some(slot);
                Ok(slot)
            }
        }
    }

    /// Frees the slot of a node if the node is dead.
    pub fn clear_dead(&mut self, x: usize, live: bool) -> Result<(), AllocError>
        ensures stays { OnOk result ((k y : ℕ) → look self.old k ≡ Some y → (y ≡ x → live ≡ true)
            → look self.new k ≡ Some y) }
        ensures only { OnOk result ((k y : ℕ) → look self.new k ≡ Some y
            → (look self.old k ≡ Some y) × (y ≡ x → live ≡ true)) }
        ensures len { OnOk result (length self.new ≡ length self.old) }
    {
        if live {
            return Ok(());
        }
        if let Some(slot) = self.find(x) {
            self.free.push(slot)?;
            self.owners[slot] = None;
            self.places[x] = None;
        }
        Ok(())
    }
}
