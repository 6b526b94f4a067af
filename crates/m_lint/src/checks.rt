//! Checks that never stop a run and are never noted.

ghost use Rattle.std.specs.Prelude.{◌≡◌, ◌<◌, ◌≤◌, ◌^◌, ◌++◌, OnOk, IfOk, length, map, take};
ghost use Rattle.observables.specs.declared.face.FaceLabel.TheVariants.{Verif};
ghost use Rattle.flat_code.specs.Faces.{IsFaceOf};
ghost use Rattle.flat_code.specs.Facts.{facts};
ghost use Rattle.flat_code.specs.Runs.{IsFlat, entries_of};
ghost use Rattle.micro_m.specs.Bases.{IsValidBase};
ghost use Rattle.m_lint.specs.declared.finding.Finding.TheVariants.{NeverStops};
ghost use Rattle.m_lint.specs.Findings.{never_stopping, numbers_with};
ghost use Rattle.m_lint.specs.inner.Loud.{is_unmarked};

use crate::Finding;
use crate::facts::facts_of;
use crate::labels::{has_text, marked_labels};
use crate::loud::loud_marks;
use definedness::Fact;
use flat_code::Flat;
use m_names::Names;
use micro_m::Base;
use observables::Face;
use std::alloc::{AllocError, Global};

/// The checks of a base whose labels are never reported, by number and in order, where the nodes of
/// the program have these facts. Its only error is running out of memory.
pub fn never_stopping(
    alloc: Global,
    known: &[Fact],
    base: &Base,
    flat: &Flat,
    face: &Face,
) -> Result<Vec<u32>, AllocError>
    requires known { length known.now ≡ length flat.now.nodes }
    requires valid { IsValidBase base.now }
    requires few { length base.now.checks < 2 ^ 32 }
    requires flat { IsFlat flat.now }
    requires shown { IsFaceOf face.now flat.now }
    requires first_labels { take (length base.now.labels) face.now.labels ≡ map Verif base.now.labels }
    ensures { IfOk result (λ found. found.items ≡ never_stopping known.now base.now flat.now face.now) }
{
    let marks = loud_marks(alloc, known, flat, face)?;
    let names = marked_labels(alloc, face.labels.as_slice(), &marks)?;
    unmarked(alloc, base, &marks, &names)
}

// The checks whose labels are neither marked nor equal to a marked one.
fn unmarked(
    alloc: Global,
    base: &Base,
    marks: &[bool],
    names: &Names,
) -> Result<Vec<u32>, AllocError>
    requires valid { IsValidBase base.now }
    requires few { length base.now.checks < 2 ^ 32 }
    requires marks { length base.now.labels ≤ length marks.now }
    ensures { IfOk result (λ found. found.items ≡ numbers_with (is_unmarked base.now marks.now names.now) (length base.now.checks)) }
{
    let mut found = Vec::new(alloc);
    for k in 0..base.checks.as_slice().len() as u32 {
        if is_unmarked(alloc, base, k, marks, names)? {
            found.push(k)?;
        }
    }
    Ok(found)
}

// Whether the label of a check is neither marked nor equal to a marked one.
fn is_unmarked(
    alloc: Global,
    base: &Base,
    k: u32,
    marks: &[bool],
    names: &Names,
) -> Result<bool, AllocError>
    requires valid { IsValidBase base.now }
    requires within { k < length base.now.checks }
    requires marks { length base.now.labels ≤ length marks.now }
    ensures { IfOk result (λ unmarked. unmarked ≡ is_unmarked base.now marks.now names.now k) }
{
    let number = base.checks.as_slice()[k as usize].1 as usize;
    if marks[number] {
        Ok(false)
    } else {
        Ok(!has_text(alloc, &base.labels.as_slice()[number], names)?)
    }
}

/// Appends the checks of a base whose labels are never reported, whatever the inputs are.
pub(crate) fn add_never_stopping(
    alloc: Global,
    base: &Base,
    flat: &Flat,
    face: &Face,
    findings: &mut Vec<Finding>,
) -> Result<(), AllocError>
    requires valid { IsValidBase base.now }
    requires few { length base.now.checks < 2 ^ 32 }
    requires flat { IsFlat flat.now }
    requires shown { IsFaceOf face.now flat.now }
    requires first_labels { take (length base.now.labels) face.now.labels ≡ map Verif base.now.labels }
    ensures { OnOk result (findings.new.items ≡ findings.old.items
        ++ map NeverStops (never_stopping (entries_of facts flat.now.nodes) base.now flat.now face.now)) }
{
    let known = facts_of(alloc, flat.nodes.as_slice(), flat.inputs, &[])?;
    let found = never_stopping(alloc, &known, base, flat, face)?;
    add_all(&found, findings)
}

fn add_all(found: &[u32], findings: &mut Vec<Finding>) -> Result<(), AllocError>
    ensures { OnOk result (findings.new.items ≡ findings.old.items ++ map NeverStops found.now) }
{
    for k in found {
        findings.push(Finding::NeverStops(*k))?;
    }
    Ok(())
}
