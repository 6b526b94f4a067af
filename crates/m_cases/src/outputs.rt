//! An index of the names of outputs.
ghost use Rattle.std.specs.Prelude.{◌≡◌, ◌<◌, ◌^◌, ◌++◌, ◌∷◌, [], length, IfOk, OnOk, ℕ, List};
ghost use Rattle.m_names.specs.Names.{index_of};
ghost use Rattle.observables.specs.Outputs.{names_of};
ghost use Rattle.m_cases.specs.inner.Outputs.{Finds};

use m_names::{Key, Names, NamesDigest};
use observables::FaceOutput;
use std::alloc::{AllocError, Global};

/// The names of outputs, each with the position of its first occurrence. Duplicate names are kept
/// once.
#[derive(Drop)]
pub(crate) struct Outputs<'a> {
    pub outputs: &'a [FaceOutput],
    pub known: Names,
    pub places: Vec<u32>,
    ghost finds: { Finds (names_of outputs.now) known places.items },
}

impl<'a> Outputs<'a> {
    /// Indexes the names of these outputs. Its only error is running out of memory.
    pub(crate) fn new(alloc: Global, outputs: &'a [FaceOutput]) -> Result<Outputs<'a>, AllocError>
        requires { length outputs.now < 2 ^ 32 }
        ensures { IfOk result (λ known. known.outputs.now ≡ outputs.now) }
    {
        let mut known = Names::under(alloc, key_of(outputs));
        let mut places = Vec::new(alloc);
        put_names(alloc, outputs, &mut known, &mut places)?;
        Ok(Outputs {
            outputs,
            known,
            places,
        })
    }

    /// The position of the first occurrence of a name among the names, from 0. Takes no memory.
    pub(crate) fn find(&self, name: &[u8]) -> Option<u32>
        ensures { result ≡ index_of name.now (names_of self.now.outputs.now) }
    {
        match self.known.find(name) {
            Some(number) => Some(self.places[number]),
            None => None,
        }
    }
}

// Adds the names of outputs to the index.
fn put_names(
    alloc: Global,
    outputs: &[FaceOutput],
    known: &mut Names,
    places: &mut Vec<u32>,
) -> Result<(), AllocError>
    requires few { length outputs.now < 2 ^ 32 }
    requires none { known.old ≡ [] }
    requires nowhere { places.old.items ≡ [] }
    ensures { OnOk result (Finds (names_of outputs.now) known.new places.new.items) }
{
    let mut place = 0u32;
    for output in outputs {
        match output {
            FaceOutput::Named(name) => {
                put_name(alloc, name.bytes(), place, known, places)?;
                place += 1;
            }
            FaceOutput::Noted(_) => {}
        }
    }
    Ok(())
}

// Adds a name, which is at this position after all names so far.
fn put_name(
    alloc: Global,
    name: &[u8],
    place: u32,
    known: &mut Names,
    places: &mut Vec<u32>,
) -> Result<(), AllocError>
    ensures { OnOk result ((names : List (List ℕ)) → length names ≡ place → Finds names known.old places.old.items
        → Finds (names ++ name.now ∷ []) known.new places.new.items) }
{
    if !known.add(alloc, name)? {
        return Ok(());
    }
    places.push(place)?;
    Ok(())
}

// A hash key made from all names, so that names can't be chosen to collide.
fn key_of(outputs: &[FaceOutput]) -> Key {
    let mut digest = NamesDigest::new();
    for output in outputs {
        if let FaceOutput::Named(name) = output {
            digest.take(name.bytes());
        }
    }
    digest.key()
}
