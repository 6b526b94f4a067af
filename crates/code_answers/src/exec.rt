//! Runs a code file: reads it, and prints the answer of its code to a household.
ghost use Rattle.std.specs.Prelude.{◌≤◌, length};
ghost use Rattle.m_places.specs.declared.limits.TheConstants.{CODE_FILE_BYTES};
ghost use Rattle.command_plans.specs.Printing.{IsAnswered};
ghost use Rattle.command_plans.specs.Views.{output_view};
ghost use Rattle.code_answers.specs.Execs.{ExecReplies};

use crate::entries::{code_entry, report_refusal};
use crate::run::answer_run;
use code_file::read_code;
use command_plans::Status;
use m_ports::Sink;
use std::alloc::Global;

/// Reads the code file of these bytes, and prints the answer of its code to the household of these bytes, or the line
/// of the first fault of the two.
pub fn exec_code<K: Sink>(alloc: Global, code: &[u8], household: &[u8], out: &mut K) -> Status
    requires { length code.now ≤ CODE_FILE_BYTES }
    ensures { IsAnswered (ExecReplies code.now household.now) (output_view K.written K.faults out.old) (output_view K.written K.faults out.new) result }
{
    match read_code(alloc, code) {
        Ok(loaded) => answer_run(alloc, &loaded, household, out),
        Err(fault) => report_refusal(out, code_entry(fault)),
    }
}
