//! The first output with each name.
ghost use Rattle.std.specs.Prelude.{◌≡◌, ◌<◌, ◌^◌, false, not, IfOk, OnOk, length};
ghost use Rattle.std.specs.Option.{option_map_or};
ghost use Rattle.m_names.specs.Names.{has};
ghost use Rattle.m_facts.specs.Found.{firsts_of, name_of};
ghost use Rattle.m_facts.specs.inner.Parts.{with_output};

use m_names::{Key, Names, NamesDigest};
use observables::FaceOutput;
use std::alloc::{AllocError, Global};

/// The outputs whose name no earlier output has, as ascending numbers.
pub(crate) fn firsts_of(alloc: Global, outputs: &[FaceOutput]) -> Result<Vec<u32>, AllocError>
    requires { length outputs.now < 2 ^ 32 }
    ensures { IfOk result (λ firsts. firsts.items ≡ firsts_of outputs.now) }
{
    let mut names = Names::under(alloc, key_of(outputs));
    let mut firsts = Vec::new(alloc);
    for (k, output) in outputs.iter().enumerate() {
        if add_name(alloc, output, &mut names)? {
            firsts.push(k as u32)?;
        }
    }
    Ok(firsts)
}

// A hash key derived from all names, so that no choice of names makes them collide.
fn key_of(outputs: &[FaceOutput]) -> Key {
    let mut digest = NamesDigest::new();
    for output in outputs {
        if let FaceOutput::Named(name) = output {
            digest.take(name.bytes());
        }
    }
    digest.key()
}

// Adds the name of an output, and returns whether it is new.
fn add_name(alloc: Global, output: &FaceOutput, names: &mut Names) -> Result<bool, AllocError>
    ensures fresh { IfOk result (λ fresh. fresh ≡ option_map_or (λ name. not (has name names.old)) (name_of output.now) false) }
    ensures added { OnOk result (names.new ≡ with_output output.now names.old) }
{
    match output {
        FaceOutput::Named(name) => names.add(alloc, name.bytes()),
        FaceOutput::Noted(_) => Ok(false),
    }
}
