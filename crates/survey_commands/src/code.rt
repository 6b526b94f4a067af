//! `table` for a code file.
ghost use Rattle.std.specs.Prelude.{◌≤◌, length};
ghost use Rattle.m_places.specs.declared.limits.TheConstants.{CODE_FILE_BYTES};
ghost use Rattle.command_plans.specs.Views.{output_view};
ghost use Rattle.code_answers.specs.Parts.{IsWrittenInParts};
ghost use Rattle.code_answers.specs.Execs.{CodeReplies};
ghost use Rattle.survey_commands.specs.Tables.{SchemeReplies};

use crate::table::answer_table;
use code_answers::{code_entry, report_refusal};
use code_file::read_code;
use command_plans::Status;
use m_ports::Sink;
use std::alloc::Global;
use std::thread::Threads;

/// Reads the code file of these bytes, and prints the answers of its code to the rows of the table of these bytes as
/// CSV, or the line of the first fault of the two.
pub(crate) fn table_code<R: Threads + Sync, K: Sink>(
    rt: &R,
    alloc: Global,
    code: &[u8],
    table: &[u8],
    out: &mut K,
) -> Status
    requires { length code.now ≤ CODE_FILE_BYTES }
    ensures { IsWrittenInParts (CodeReplies code.now (λ scheme. SchemeReplies scheme table.now)) (output_view K.written K.faults out.old)
        (output_view K.written K.faults out.new) result }
{
    match read_code(alloc, code) {
        Ok(loaded) => answer_table(rt, alloc, &loaded, table, out),
        Err(fault) => report_refusal(out, code_entry(fault)),
    }
}
