//! All findings.

ghost use Rattle.std.specs.Prelude.{◌≡◌, ◌<◌, ◌^◌, IfOk, length, map, take};
ghost use Rattle.observables.specs.declared.face.FaceLabel.TheVariants.{Verif};
ghost use Rattle.flat_code.specs.Faces.{IsFaceOf};
ghost use Rattle.m_symbols.specs.Declarations.{owners_from};
ghost use Rattle.micro_m.specs.Bases.{IsValidBase};
ghost use Rattle.m_lint.specs.Findings.{findings_of, AreWithinCounts};

use crate::Finding;
use crate::cells::add_never_defined;
use crate::checks::add_never_stopping;
use crate::inputs::add_unused;
use flat_code::Tidy;
use m_places::Seq;
use m_symbols::Symbols;
use micro_m::Base;
use observables::Face;
use std::alloc::{AllocError, Global};

/// The findings about a base, given the program that it compiles to, with its face: the cells that
/// are read and never defined, then the checks that never stop and are never noted, then the inputs
/// that aren't used, each by number. Its only error is running out of memory.
///
/// The time is linear in the nodes, checks, outputs, cells and bytes of the labels.
pub fn lint(
    alloc: Global,
    base: &Base,
    symbols: &Symbols,
    tidy: &Tidy,
    face: &Face,
) -> Result<Seq<Finding>, AllocError>
    requires valid { IsValidBase base.now }
    requires cells { base.now.cells ≡ length (owners_from 0 symbols.now.variables) }
    requires few { length base.now.checks < 2 ^ 32 }
    requires shown { IsFaceOf face.now tidy.now }
    requires first_labels { take (length base.now.labels) face.now.labels ≡ map Verif base.now.labels }
    ensures findings { IfOk result (λ findings. findings ≡ findings_of symbols.now base.now tidy.now face.now) }
    ensures within { IfOk result (λ findings. AreWithinCounts base.now.cells (length base.now.checks) tidy.now.inputs findings) }
{
    let mut findings = Vec::new(alloc);
    add_never_defined(alloc, base, symbols, &mut findings)?;
    add_never_stopping(alloc, base, tidy.flat(), face, &mut findings)?;
    add_unused(alloc, tidy.flat(), &mut findings)?;
    Ok(Seq::from_vec(findings))
}
