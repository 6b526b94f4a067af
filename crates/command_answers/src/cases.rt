//! Cases: compares the answers of a source's code to the rows of a table with their expectations, in groups.
ghost use Rattle.std.specs.Prelude.{◌<◌, Ok, Err};
ghost use Rattle.m_places.specs.SourceLimits.{SourceKeepsLimits};
ghost use Rattle.command_plans.specs.Views.{output_view};
ghost use Rattle.code_answers.specs.Parts.{IsWrittenInParts};
ghost use Rattle.code_answers.specs.Cases.{ComparedReplies};
ghost use Rattle.command_answers.specs.Sources.{SourceReplies};

use crate::program::prepare_code;
use code_answers::answer_cases;
use command_plans::Status;
use m_places::Source;
use m_ports::Sink;
use rule_answers::report_source;
use std::alloc::Global;
use std::thread::Threads;

/// Prepares the code of a source, and prints the expectations of the rows of the table of these bytes that aren't met,
/// and their number, or the line of the first fault of the two. Rows are computed and written in groups, so a prefix
/// of the answer is written if memory runs out.
pub fn cases_source<R: Threads + Sync, K: Sink>(
    rt: &R,
    alloc: Global,
    source: &Source,
    table: &[u8],
    out: &mut K,
) -> Status
    requires { SourceKeepsLimits source.now }
    ensures { IsWrittenInParts (SourceReplies source.now (λ scheme. ComparedReplies scheme table.now)) (output_view K.written K.faults out.old)
        (output_view K.written K.faults out.new) result }
{
    match prepare_code(rt, alloc, source) {
        Ok(loaded) => answer_cases(rt, alloc, &loaded, table, out),
        Err(fault) => report_source(source, fault, out),
    }
}
