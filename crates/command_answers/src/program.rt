//! The code of a source.
ghost use Rattle.std.specs.Prelude.{IfOk};
ghost use Rattle.m_places.specs.Refusals.{Outcome};
ghost use Rattle.m_places.specs.SourceLimits.{SourceKeepsLimits};
ghost use Rattle.m_compile.specs.Faults.{IsSourceFault};
ghost use Rattle.m_compile.specs.declared.fault.SourceFault.TheVariants.{Memory};
ghost use Rattle.command_answers.specs.Prepared.{IsPreparedCode};
ghost use Rattle.code_answers.specs.Shown.{IsRunnableCode};

use code_file::Loaded;
use m_compile::{SourceFault, compile_with};
use m_places::Source;
use std::alloc::Global;
use std::thread::Threads;

/// Prepares the code of a source, or gives the source's fault: `compile_with`, whose code shows the source's scheme.
pub fn prepare_code<R: Threads + Sync>(
    rt: &R,
    alloc: Global,
    source: &Source,
) -> Result<Loaded, SourceFault>
    requires limits { SourceKeepsLimits source.now }
    ensures outcome { Outcome Memory result (IsPreparedCode source.now) (IsSourceFault source.now) }
    ensures runnable { IfOk result (λ loaded. IsRunnableCode loaded) }
{
    compile_with(rt, alloc, source)
}
