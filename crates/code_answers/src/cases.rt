//! Cases: compares the answers of code to the rows of a table with their expectations.
ghost use Rattle.std.specs.Prelude.{◌≡◌, ◌<◌, ◌≤◌, ◌^◌, IfOk, Ok, Err, length};
ghost use Rattle.std.specs.List.{AllByRecursion};
ghost use Rattle.m_places.specs.Refusals.{Outcome};
ghost use Rattle.m_places.specs.declared.limits.TheConstants.{ROWS};
ghost use Rattle.household.specs.Household.{AreInputs, AreOfTypes};
ghost use Rattle.reg_machine.specs.Machine.{machine_run};
ghost use Rattle.m_cases.specs.Cases.{AreExpected, face_cases};
ghost use Rattle.m_cases.specs.declared.fault.CasesFault.TheVariants.{Memory as NoMemory};
ghost use Rattle.command_plans.specs.Views.{output_view};
ghost use Rattle.code_answers.specs.Parts.{IsWrittenInParts};
ghost use Rattle.code_answers.specs.Cases.{ComparedReplies};
ghost use Rattle.code_answers.specs.Shown.{IsRunnableCode, Shows};
ghost use Rattle.code_answers.specs.Schemes.{Scheme};
ghost use Rattle.code_answers.specs.inner.Printers.{compared_status};

use crate::compared::print_cases;
use crate::entries::{cases_entry, report_refusal};
use crate::given::codes_by;
use code_file::Loaded;
use command_plans::Status;
use m_batch::PrintFault;
use m_cases::{Cases, CasesFault, read_cases};
use m_ports::Sink;
use std::alloc::Global;
use std::thread::Threads;

/// Prints the expectations of the table of these bytes that the code doesn't meet, or the line of the table's fault.
pub fn answer_cases<R: Threads + Sync, K: Sink>(
    rt: &R,
    alloc: Global,
    loaded: &Loaded,
    table: &[u8],
    out: &mut K,
) -> Status
    requires runnable { IsRunnableCode loaded.now }
    requires few { length loaded.now.face.outputs < 2 ^ 32 }
    ensures { (scheme : Scheme) → Shows scheme loaded.now.face (machine_run loaded.now.code)
        → IsWrittenInParts (ComparedReplies scheme table.now) (output_view K.written K.faults out.old) (output_view K.written K.faults out.new) result }
{
    match cases_in(alloc, loaded, table) {
        Ok(cases) => status_of_cases(print_cases(
            rt,
            alloc,
            loaded,
            cases.rows.as_slice(),
            cases.expected.as_slice(),
            out,
        )),
        Err(fault) => report_refusal(out, cases_entry(fault)),
    }
}

// The cases of the table of these bytes, for the codes of the inputs and the names of the outputs.
fn cases_in(alloc: Global, loaded: &Loaded, table: &[u8]) -> Result<Cases, CasesFault>
    requires runnable { IsRunnableCode loaded.now }
    requires few { length loaded.now.face.outputs < 2 ^ 32 }
    ensures outcome { Outcome NoMemory result (λ cases. face_cases loaded.now.face.inputs loaded.now.face table.now ≡ Ok cases)
        (λ fault. face_cases loaded.now.face.inputs loaded.now.face table.now ≡ Err fault) }
    ensures inputs { IfOk result (λ cases. AllByRecursion (λ row. AreInputs (length loaded.now.face.inputs) row.household.pairs) cases.rows) }
    ensures amounts { IfOk result (λ cases. AllByRecursion (λ row. AreOfTypes loaded.now.face.inputs row.household.pairs) cases.rows) }
    ensures many { IfOk result (λ cases. length cases.expected ≡ length cases.rows) }
    ensures few { IfOk result (λ cases. length cases.rows ≤ ROWS) }
    ensures expected { IfOk result (λ cases. AllByRecursion (AreExpected (length loaded.now.face.outputs)) cases.expected) }
{
    let codes = codes_by(alloc, loaded)?;
    read_cases(alloc, table, &codes, &loaded.face)
}

// The status after printing cases.
fn status_of_cases(written: Result<u64, PrintFault>) -> Status
    ensures { result ≡ compared_status written }
{
    match written {
        Ok(0) => Status::Done,
        Ok(_) => Status::Stopped,
        Err(PrintFault::Memory) => Status::Memory,
        Err(PrintFault::Failed) => Status::WriteFault,
    }
}
