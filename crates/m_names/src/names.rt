ghost use Rattle.std.specs.Prelude.{◌≡◌, ◌<◌, ◌^◌, true, OnErr, IfOk, IfSome, length, not, if◌then◌else◌, ◌++◌, ◌∷◌, [], Some};
ghost use Rattle.m_places.specs.Refusals.{Outcome};
ghost use Rattle.m_names.specs.Names.{index_of, has, AreDistinct};
ghost use Rattle.m_names.specs.Faults.{Repeats};

use crate::NamesFault;
use crate::key::Key;
use indexmap::IndexSet;
use m_places::Name;
use std::alloc::{AllocError, Global};
use std::marker::Model;

/// Distinct names in order, numbered from 0. Contracts see them as the list of the names' bytes.
/// Numbers are `usize`, which no memory outgrows; a caller that needs 32 bits requires fewer names.
#[derive(Drop)]
pub struct Names {
    known: IndexSet<Vec<u8>, Key>,
}

impl Model for Names {
    ghost use Rattle.std.specs.Prelude.{List, ℕ, map};

    ghost Value = { List (List ℕ) };

    ghost view = { λ n. map (λ k. k.items) n.known.keys };
}

impl Names {
    /// No names. Takes no memory.
    ///
    /// Names that a user chose go to `Names::of` all at once, or to `Names::under` with a key made
    /// of them: the names added here are hashed under a key that anyone can compute.
    pub fn new(alloc: Global) -> Names
        ensures { result ≡ [] }
    {
        Names {
            known: IndexSet::with_hasher(alloc, Key::of(&[])),
        }
    }

    /// No names. Those added later are hashed under this key. Takes no memory.
    pub fn under(alloc: Global, key: Key) -> Names
        ensures { result ≡ [] }
    {
        Names {
            known: IndexSet::with_hasher(alloc, key),
        }
    }

    /// These names in order, or the error for the first that occurs twice. `add` hashes further
    /// names under the key of these.
    pub fn of(alloc: Global, names: &[Name]) -> Result<Names, NamesFault>
        ensures outcome { Outcome NamesFault.Memory result
            (λ known. (known ≡ names.now) × AreDistinct names.now) (Repeats names.now) }
    {
        let mut known = Names {
            known: IndexSet::with_capacity_and_hasher(alloc, names.len(), Key::of(names))?,
        };
        for name in names {
            let later = known.len();
            let (earlier, fresh) = known.put(alloc, name.bytes())?;
            if !fresh {
                return Err(NamesFault::Repeated(earlier, later));
            }
        }
        Ok(known)
    }

    /// The number of names. Takes no memory.
    pub fn len(&self) -> usize
        ensures { result ≡ length self.now }
    {
        self.known.len()
    }

    /// The number of a name, from 0, if it is known. Takes no memory.
    pub fn find(&self, name: &[u8]) -> Option<usize>
        ensures number { result ≡ index_of name.now self.now }
        ensures within { IfSome result (λ number. number < length self.now) }
    {
        self.known.get_index_of(name)
    }

    /// `find` for fewer than 2^32 names. Takes no memory.
    pub fn number(&self, name: &[u8]) -> Option<u32>
        requires { length self.now < 2 ^ 32 }
        ensures number { result ≡ index_of name.now self.now }
        ensures within { IfSome result (λ number. number < length self.now) }
    {
        match self.find(name) {
            Some(number) => Some(number as u32),
            None => None,
        }
    }

    /// Appends a name if it is new, and returns whether it was. Its only error is running out of
    /// memory, and then the names are unchanged.
    pub fn add(&mut self, alloc: Global, name: &[u8]) -> Result<bool, AllocError>
        ensures fresh { IfOk result (λ fresh. fresh ≡ not (has name.now self.old)) }
        ensures added { IfOk result (λ fresh. self.new ≡ (if fresh then self.old ++ name.now ∷ [] else self.old)) }
        ensures err { OnErr result (self.new ≡ self.old) }
    {
        let (_, fresh) = self.put(alloc, name)?;
        Ok(fresh)
    }

    // Appends a name if it is new. Returns its number, and whether it was new.
    fn put(&mut self, alloc: Global, name: &[u8]) -> Result<(usize, bool), AllocError>
        ensures number { IfOk result (λ r. has name.now self.old ≡ true → index_of name.now self.old ≡ Some r.0) }
        ensures fresh { IfOk result (λ r. r.1 ≡ not (has name.now self.old)) }
        ensures added { IfOk result (λ r. self.new ≡ (if r.1 then self.old ++ name.now ∷ [] else self.old)) }
        ensures err { OnErr result (self.new ≡ self.old) }
    {
        let key = Vec::from_slice(alloc, name)?;
        let entry = self.known.insert_full(key)?;
        Ok(entry)
    }
}

/// Whether a name is among names, by linear search. Takes no memory.
pub fn has_name(names: &[Name], name: &[u8]) -> bool
    ensures { result ≡ has name.now names.now }
{
    for other in names {
        if name == other.bytes() {
            return true;
        }
    }
    false
}
