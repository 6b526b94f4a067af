//! The answer of a command to what it gathered, printed as it is made.
ghost use Rattle.command_plans.specs.Printing.{Prints};
ghost use Rattle.command_plans.specs.Views.{output_view};
ghost use Rattle.command_plans.specs.declared.status.Status.TheVariants.{Done};
ghost use Rattle.survey_commands.specs.Answer.{WorkKeepsLimits};
ghost use Rattle.survey_commands.specs.Lines.{version_line};
ghost use Rattle.survey_commands.specs.inner.Courses.{WorkIsAnswered};

use crate::code::table_code;
use crate::facts::facts_source;
use crate::source::table_source;
use crate::work::Work;
use command_plans::{Status, printed};
use m_ports::{Sink, give_pieces};
use std::alloc::Global;
use std::thread::Threads;

// The version of this program and of the packages built on it.
const VERSION: &[u8] = b"1.0.0";

/// Answers what was gathered, and gives the status.
pub fn answer<R: Threads + Sync, K: Sink>(rt: &R, alloc: Global, work: &Work, out: &mut K) -> Status
    requires { WorkKeepsLimits work.now }
    ensures { WorkIsAnswered work.now (output_view K.written K.faults out.old) (output_view K.written K.faults out.new) result }
{
    match work {
        Work::Table(source, table) => table_source(rt, alloc, source, table.as_slice(), out),
        Work::Facts(source, ranges) => facts_source(rt, alloc, source, ranges, out),
        Work::CodeTable(code, table) => {
            table_code(rt, alloc, code.as_slice(), table.as_slice(), out)
        }
        Work::Version => print_version(out),
    }
}

// Prints the line of `version`. Takes no memory.
fn print_version<K: Sink>(out: &mut K) -> Status
    ensures { Prints version_line Done (output_view K.written K.faults out.old) (output_view K.written K.faults out.new) result }
{
    printed(
        give_pieces(out, &[b"vodmejka ", VERSION, b"\n"]),
        Status::Done,
    )
}
