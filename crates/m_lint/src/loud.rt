//! The labels that may be reported, by number.

ghost use Rattle.std.specs.Prelude.{◌≡◌, ◌<◌, IfOk, length};
ghost use Rattle.std.specs.List.{AllByRecursion};
ghost use Rattle.flat_code.specs.Faces.{IsFaceOf};
ghost use Rattle.flat_code.specs.Runs.{IsFlat, IsCheck};
ghost use Rattle.m_lint.specs.inner.Loud.{loud_of, with_checks, with_notes, with_output};

use crate::facts::{is_quiet, is_silent};
use definedness::Fact;
use flat_code::{Check, Flat};
use observables::{Face, FaceOutput};
use std::alloc::{AllocError, Global};

/// For each label of a face whether a check or a note with it may be reported, where the nodes have
/// these facts.
pub(crate) fn loud_marks(
    alloc: Global,
    known: &[Fact],
    flat: &Flat,
    face: &Face,
) -> Result<Vec<bool>, AllocError>
    requires known { length known.now ≡ length flat.now.nodes }
    requires valid { IsFlat flat.now }
    requires shown { IsFaceOf face.now flat.now }
    ensures count { IfOk result (λ marks. length marks.items ≡ length face.now.labels) }
    ensures marks { IfOk result (λ marks. marks.items ≡ loud_of known.now flat.now face.now) }
{
    let mut marks = vec![in alloc; false; face.labels.as_slice().len()]?;
    mark_checks(known, flat.checks.as_slice(), &mut marks);
    mark_notes(
        known,
        face.outputs.as_slice(),
        flat.outputs.as_slice(),
        &mut marks,
    );
    Ok(marks)
}

fn mark_checks(known: &[Fact], checks: &[Check], marks: &mut [bool])
    requires valid { AllByRecursion (IsCheck (length known.now)) checks.now }
    requires labels { AllByRecursion (λ check. check.label < length marks.old) checks.now }
    ensures { marks.new ≡ with_checks known.now checks.now marks.old }
{
    for check in checks {
        if !is_silent(known, *check) {
            marks[check.label as usize] = true;
        }
    }
}

fn mark_notes(known: &[Fact], outputs: &[FaceOutput], nodes: &[u32], marks: &mut [bool])
    requires same { length outputs.now ≡ length nodes.now }
    requires nodes { AllByRecursion (λ p. p < length known.now) nodes.now }
    ensures { marks.new ≡ with_notes known.now outputs.now nodes.now marks.old }
{
    for (k, output) in outputs.iter().enumerate() {
        mark_output(known[nodes[k] as usize], output, marks);
    }
}

// Marks the label of a note that may be reported.
fn mark_output(fact: Fact, output: &FaceOutput, marks: &mut [bool])
    ensures { marks.new ≡ with_output fact output.now marks.old }
{
    if let FaceOutput::Noted(number) = output
        && !is_quiet(fact)
        && (*number as usize) < marks.len()
    {
        marks[*number as usize] = true;
    }
}
