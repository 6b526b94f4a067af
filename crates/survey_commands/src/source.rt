//! `table` for a source.
ghost use Rattle.m_places.specs.SourceLimits.{SourceKeepsLimits};
ghost use Rattle.command_plans.specs.Views.{output_view};
ghost use Rattle.code_answers.specs.Parts.{IsWrittenInParts};
ghost use Rattle.command_answers.specs.Sources.{SourceReplies};
ghost use Rattle.survey_commands.specs.Tables.{SchemeReplies};

use crate::table::answer_table;
use command_answers::prepare_code;
use command_plans::Status;
use m_places::Source;
use m_ports::Sink;
use rule_answers::report_source;
use std::alloc::Global;
use std::thread::Threads;

/// Prepares the code of a source, and prints its answers to the rows of the table of these bytes as CSV, or the line
/// of the first fault of the two. Rows are computed and written in groups, so a prefix of the answer is written if
/// memory runs out.
pub(crate) fn table_source<R: Threads + Sync, K: Sink>(
    rt: &R,
    alloc: Global,
    source: &Source,
    table: &[u8],
    out: &mut K,
) -> Status
    requires { SourceKeepsLimits source.now }
    ensures { IsWrittenInParts (SourceReplies source.now (λ scheme. SchemeReplies scheme table.now)) (output_view K.written K.faults out.old)
        (output_view K.written K.faults out.new) result }
{
    match prepare_code(rt, alloc, source) {
        Ok(loaded) => answer_table(rt, alloc, &loaded, table, out),
        Err(fault) => report_source(source, fault, out),
    }
}
