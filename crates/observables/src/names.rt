//! Interfaces without notes.
ghost use Rattle.std.specs.Prelude.{◌≡◌, IfOk, map};
ghost use Rattle.observables.specs.declared.face.FaceOutput.TheVariants.{Named};

use crate::{Coded, Face, FaceLabel, FaceOutput};
use m_places::{Name, Seq};
use std::alloc::{AllocError, Global};

/// The interface of a program whose outputs all have names. Its only error is running out of
/// memory.
pub fn named_face(
    alloc: Global,
    inputs: Seq<Coded>,
    labels: Seq<FaceLabel>,
    names: Seq<Name>,
) -> Result<Face, AllocError>
    ensures inputs { IfOk result (λ face. face.inputs ≡ inputs) }
    ensures labels { IfOk result (λ face. face.labels ≡ labels) }
    ensures outputs { IfOk result (λ face. face.outputs ≡ map Named names) }
{
    let outputs = named(alloc, names)?;
    Ok(Face {
        inputs,
        labels,
        outputs,
    })
}

// A named output for each name, in order.
fn named(alloc: Global, names: Seq<Name>) -> Result<Seq<FaceOutput>, AllocError>
    ensures { IfOk result (λ outputs. outputs ≡ map Named names) }
{
    let mut outputs = Vec::new(alloc);
    for name in names.into_vec() {
        outputs.push(FaceOutput::Named(name))?;
    }
    Ok(Seq::from_vec(outputs))
}
