//! A batch: prints the answers of code to the rows of a table.
ghost use Rattle.std.specs.Prelude.{◌≡◌, IfOk, Ok, Err, length};
ghost use Rattle.std.specs.List.{AllByRecursion};
ghost use Rattle.m_places.specs.Refusals.{Outcome};
ghost use Rattle.household.specs.Household.{AreInputs};
ghost use Rattle.household.specs.Table.{table_of};
ghost use Rattle.household.specs.declared.fault.HouseholdFault.TheVariants.{Memory as NoMemory};
ghost use Rattle.reg_machine.specs.Machine.{machine_run};
ghost use Rattle.command_plans.specs.Views.{output_view};
ghost use Rattle.code_answers.specs.Parts.{IsWrittenInParts};
ghost use Rattle.code_answers.specs.Shown.{IsRunnableCode, Shows, TableReplies};
ghost use Rattle.code_answers.specs.Schemes.{Scheme};
ghost use Rattle.code_answers.specs.inner.Printers.{rows_status};

use crate::entries::{household_entry, report_refusal};
use crate::given::codes_by;
use crate::printers::AnswerLines;
use code_file::Loaded;
use command_plans::Status;
use household::{HouseholdFault, Row, read_table};
use m_batch::{PrintFault, print_batch};
use m_places::{Open, Seq};
use m_ports::Sink;
use std::alloc::Global;
use std::thread::Threads;

/// Prints the answers of code to the rows of the table of these bytes, or the line of the table's fault.
pub fn answer_batch<R: Threads + Sync, K: Sink>(
    rt: &R,
    alloc: Global,
    loaded: &Loaded,
    table: &[u8],
    out: &mut K,
) -> Status
    requires { IsRunnableCode loaded.now }
    ensures { (scheme : Scheme) → Shows scheme loaded.now.face (machine_run loaded.now.code)
        → IsWrittenInParts (TableReplies scheme table.now) (output_view K.written K.faults out.old) (output_view K.written K.faults out.new) result }
{
    match rows_of(rt, alloc, loaded, table) {
        Ok(rows) => {
            let printer = AnswerLines { face: &loaded.face };
            let code = &loaded.code;
            status_of_rows(print_batch(rt, alloc, code, rows.as_slice(), &Open, &printer, out))
        }
        Err(fault) => report_refusal(out, household_entry(fault)),
    }
}

/// The rows of the table of these bytes, for the code's inputs.
pub fn rows_of<R: Threads + Sync>(
    rt: &R,
    alloc: Global,
    loaded: &Loaded,
    table: &[u8],
) -> Result<Seq<Row>, HouseholdFault>
    requires { IsRunnableCode loaded.now }
    ensures outcome { Outcome NoMemory result (λ rows. table_of loaded.now.face.inputs table.now ≡ Ok rows)
        (λ fault. table_of loaded.now.face.inputs table.now ≡ Err fault) }
    ensures inputs { IfOk result (λ rows. AllByRecursion (λ row. AreInputs (length loaded.now.face.inputs) row.household.pairs) rows) }
{
    let codes = codes_by(alloc, loaded)?;
    read_table(rt, alloc, table, &codes)
}

/// The status after printing rows.
pub fn status_of_rows(written: Result<u64, PrintFault>) -> Status
    ensures { result ≡ rows_status written }
{
    match written {
        Ok(_) => Status::Done,
        Err(PrintFault::Memory) => Status::Memory,
        Err(PrintFault::Failed) => Status::WriteFault,
    }
}
