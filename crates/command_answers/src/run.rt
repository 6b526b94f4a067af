//! A run: prints the answer of a source's code to a household.
ghost use Rattle.std.specs.Prelude.{Ok, Err};
ghost use Rattle.m_places.specs.SourceLimits.{SourceKeepsLimits};
ghost use Rattle.command_plans.specs.Printing.{IsAnswered};
ghost use Rattle.command_plans.specs.Views.{output_view};
ghost use Rattle.command_answers.specs.Runs.{RunReplies};

use crate::program::prepare_code;
use code_answers::answer_run;
use command_plans::Status;
use m_places::Source;
use m_ports::Sink;
use rule_answers::report_source;
use std::alloc::Global;
use std::thread::Threads;

/// Prepares the code of a source, and prints its answer to the household of these bytes, or the line of the first
/// fault of the two.
pub fn run_source<R: Threads + Sync, K: Sink>(
    rt: &R,
    alloc: Global,
    source: &Source,
    household: &[u8],
    out: &mut K,
) -> Status
    requires { SourceKeepsLimits source.now }
    ensures { IsAnswered (RunReplies source.now household.now) (output_view K.written K.faults out.old) (output_view K.written K.faults out.new) result }
{
    match prepare_code(rt, alloc, source) {
        Ok(loaded) => answer_run(alloc, &loaded, household, out),
        Err(fault) => report_source(source, fault, out),
    }
}
