//! A compilation: writes the code file of a source.
ghost use Rattle.m_places.specs.SourceLimits.{SourceKeepsLimits};
ghost use Rattle.command_plans.specs.Printing.{IsAnswered};
ghost use Rattle.command_plans.specs.Views.{output_view};
ghost use Rattle.command_answers.specs.Compiles.{CompileReplies};
ghost use Rattle.command_answers.specs.inner.Answers.{IsFileOf};

use crate::program::prepare_code;
use code_answers::give_code;
use code_file::Loaded;
use command_plans::{Status, printed};
use m_places::Source;
use m_ports::Sink;
use rule_answers::report_source;
use std::alloc::Global;
use std::thread::Threads;

/// Prepares the code of a source, and writes its code file, or the line of the source's fault.
pub fn compile_source<R: Threads + Sync, K: Sink>(
    rt: &R,
    alloc: Global,
    source: &Source,
    out: &mut K,
) -> Status
    requires { SourceKeepsLimits source.now }
    ensures { IsAnswered (CompileReplies source.now) (output_view K.written K.faults out.old) (output_view K.written K.faults out.new) result }
{
    match prepare_code(rt, alloc, source) {
        Ok(loaded) => answer_compile(loaded, out),
        Err(fault) => report_source(source, fault, out),
    }
}

// Writes the code file of loaded code, and drops the code.
fn answer_compile<K: Sink>(loaded: Loaded, out: &mut K) -> Status
    ensures { IsAnswered (IsFileOf loaded) (output_view K.written K.faults out.old) (output_view K.written K.faults out.new) result }
{
    printed(give_code(&loaded, out), Status::Done)
}
