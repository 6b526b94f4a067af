//! A table: prints the answers of code to its rows as CSV.
ghost use Rattle.std.specs.List.{AllByRecursion};
ghost use Rattle.m_batch.specs.Batch.{HasInputsBelow};
ghost use Rattle.m_batch.specs.Printing.{WritesRows};
ghost use Rattle.reg_machine.specs.Machine.{machine_run};
ghost use Rattle.command_plans.specs.Views.{output_view};
ghost use Rattle.code_answers.specs.Parts.{IsWrittenInParts};
ghost use Rattle.code_answers.specs.Shown.{IsRunnableCode, Shows};
ghost use Rattle.code_answers.specs.Schemes.{Scheme};
ghost use Rattle.survey_commands.specs.Tables.{SchemeReplies};
ghost use Rattle.survey_commands.specs.inner.Printers.{text_by};

use crate::columns::{HEADER_ROOM, give_header};
use crate::records::Records;
use code_answers::{household_entry, report_refusal, rows_of, status_of_rows};
use code_file::Loaded;
use command_plans::Status;
use household::Row;
use m_batch::{PrintFault, print_batch};
use m_places::Open;
use m_ports::{FixedText, Sink};
use std::alloc::Global;
use std::thread::Threads;

/// Prints the answers of code to the rows of the table of these bytes as CSV, or the line of the table's fault.
pub(crate) fn answer_table<R: Threads + Sync, K: Sink>(
    rt: &R,
    alloc: Global,
    loaded: &Loaded,
    table: &[u8],
    out: &mut K,
) -> Status
    requires runnable { IsRunnableCode loaded.now }
    ensures { (scheme : Scheme) → Shows scheme loaded.now.face (machine_run loaded.now.code)
        → IsWrittenInParts (SchemeReplies scheme table.now) (output_view K.written K.faults out.old) (output_view K.written K.faults out.new) result }
{
    let Ok(mut held) = FixedText::new(alloc, HEADER_ROOM) else {
        return Status::Memory;
    };
    match rows_of(rt, alloc, loaded, table) {
        Ok(rows) => {
            let rows = rows.as_slice();
            status_of_rows(print_table(rt, alloc, loaded, rows, &mut held, out))
        }
        Err(fault) => report_refusal(out, household_entry(fault)),
    }
}

// Computes rows, and prints the first record and the records of the rows.
fn print_table<R: Threads + Sync, K: Sink>(
    rt: &R,
    alloc: Global,
    loaded: &Loaded,
    rows: &[Row],
    held: &mut FixedText,
    out: &mut K,
) -> Result<u64, PrintFault>
    requires inputs { AllByRecursion (HasInputsBelow loaded.now.code.counts.inputs) rows.now }
    requires runnable { IsRunnableCode loaded.now }
    ensures { WritesRows K.written K.faults out.old out.new result (text_by loaded.now rows.now) }
{
    give_header(loaded.face.outputs.as_slice(), held, out)?;
    let printer = Records { face: &loaded.face };
    let count = print_batch(rt, alloc, &loaded.code, rows, &Open, &printer, out)?;
    Ok(count)
}
