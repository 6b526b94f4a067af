//! The lines of a source's faults and of a report's faults.
ghost use Rattle.std.specs.Prelude.{◌≡◌};
ghost use Rattle.std.specs.Option.{option_map};
ghost use Rattle.tax_print.specs.FaultLines.{fault_line};
ghost use Rattle.m_compile.specs.Lines.{source_line};
ghost use Rattle.command_plans.specs.Views.{output_view};
ghost use Rattle.code_answers.specs.inner.Refusals.{ReportsLine};
ghost use Rattle.rule_answers.specs.Checks.{report_fault_line};

use code_answers::report_refusal;
use command_plans::Status;
use m_compile::{SourceFault, fault_entry};
use m_places::Source;
use m_ports::Sink;
use tax_print::Fault;
use why_report::ReportFault;

/// Reports the fault of a source by its line, or out of memory by no line. It takes the fault by value, so that the
/// fault is dropped here: if an arm of each caller dropped it, the callers' borrow check would take half a minute.
pub fn report_source<K: Sink>(source: &Source, fault: SourceFault, out: &mut K) -> Status
    ensures { ReportsLine (source_line source.now.texts fault) (output_view K.written K.faults out.old) (output_view K.written K.faults out.new) result }
{
    let status = report_refusal(out, fault_entry(source.texts.as_slice(), &fault));
    drop(fault);
    status
}

/// Maps a fault of a report to its line; none for out of memory.
pub(crate) fn report_entry<'a>(fault: ReportFault) -> Option<Fault<'a>>
    ensures { option_map fault_line result ≡ report_fault_line fault }
{
    match fault {
        ReportFault::BadLine(line) => Some(Fault::AtLine(b"report", line, b"bad line")),
        ReportFault::Memory => None,
    }
}
