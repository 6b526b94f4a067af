//! The errors of a command's files, as lines. Nothing here takes memory.
ghost use Rattle.std.specs.Prelude.{◌≡◌};
ghost use Rattle.std.specs.Option.{option_map};
ghost use Rattle.tax_print.specs.FaultLines.{fault_line};
ghost use Rattle.command_plans.specs.Views.{output_view};
ghost use Rattle.code_answers.specs.Cases.{cases_fault_line};
ghost use Rattle.code_answers.specs.Execs.{code_fault_line};
ghost use Rattle.code_answers.specs.Households.{answer_status, household_fault_line, records_fault_line};
ghost use Rattle.code_answers.specs.inner.Refusals.{ReportsLine};

use code_file::CodeFault;
use command_plans::{Status, print_fault};
use household::HouseholdFault;
use m_cases::CasesFault;
use m_ports::Sink;
use observables::Answer;
use tax_print::Fault;

/// Reports why the input is rejected, or nothing for out of memory, and gives the status.
pub fn report_refusal<K: Sink>(out: &mut K, reported: Option<Fault<'_>>) -> Status
    ensures { ReportsLine (option_map fault_line reported.entry) (output_view K.written K.faults out.old) (output_view K.written K.faults out.new) result }
{
    match reported {
        Some(fault) => print_fault(out, fault, Status::Refused),
        None => Status::Memory,
    }
}

/// Maps a fault of the records of an input to its line; none for out of memory.
pub fn records_entry<'a>(input: &'a [u8], fault: HouseholdFault) -> Option<Fault<'a>>
    ensures { option_map fault_line result ≡ records_fault_line input.now fault }
{
    match fault {
        HouseholdFault::BadHeader => Some(Fault::InInput(input, b"bad header")),
        HouseholdFault::TooManyRows => Some(Fault::InInput(input, b"too many rows")),
        HouseholdFault::BadRow(line) => Some(Fault::AtLine(input, line, b"bad row")),
        HouseholdFault::UnknownCode(line) => Some(Fault::AtLine(input, line, b"unknown code")),
        HouseholdFault::BadAmount(line) => Some(Fault::AtLine(input, line, b"bad amount")),
        HouseholdFault::NotOfType(line) => Some(Fault::AtLine(input, line, b"not of its type")),
        HouseholdFault::CodeTwice(line) => Some(Fault::AtLine(input, line, b"code twice")),
        HouseholdFault::Memory => None,
    }
}

/// Maps a fault of a household or a table to its line; none for out of memory.
pub fn household_entry<'a>(fault: HouseholdFault) -> Option<Fault<'a>>
    ensures { option_map fault_line result ≡ household_fault_line fault }
{
    records_entry(b"household", fault)
}

/// Maps a fault of a table of cases to its line; none for out of memory.
pub(crate) fn cases_entry<'a>(fault: CasesFault) -> Option<Fault<'a>>
    ensures { option_map fault_line result ≡ cases_fault_line fault }
{
    match fault {
        CasesFault::BadHeader => Some(Fault::InInput(b"household", b"bad header")),
        CasesFault::TooManyRows => Some(Fault::InInput(b"household", b"too many rows")),
        CasesFault::BadRow(line) => Some(Fault::AtLine(b"household", line, b"bad row")),
        CasesFault::UnknownCode(line) => Some(Fault::AtLine(b"household", line, b"unknown code")),
        CasesFault::UnknownOutput(line) => Some(Fault::AtLine(
            b"household",
            line,
            b"unknown output",
        )),
        CasesFault::CodeTwice(line) => Some(Fault::AtLine(b"household", line, b"code twice")),
        CasesFault::BadAmount(line) => Some(Fault::AtLine(b"household", line, b"bad amount")),
        CasesFault::NotOfType(line) => Some(Fault::AtLine(b"household", line, b"not of its type")),
        CasesFault::BadExpected(line) => Some(Fault::AtLine(b"household", line, b"bad expected")),
        CasesFault::Memory => None,
    }
}

/// Maps a fault of a code file to its line; none for out of memory.
pub fn code_entry<'a>(fault: CodeFault) -> Option<Fault<'a>>
    ensures { option_map fault_line result ≡ code_fault_line fault }
{
    match fault {
        CodeFault::BadHeader => Some(Fault::InInput(b"code", b"bad header")),
        CodeFault::BadLine(line) => Some(Fault::AtLine(b"code", line, b"bad line")),
        CodeFault::BadOrder(line) => Some(Fault::AtLine(b"code", line, b"read before write")),
        CodeFault::Memory => None,
    }
}

/// The status of an answer: values, or what stopped the run.
pub(crate) fn status_of(answer: &Answer) -> Status
    ensures { result ≡ answer_status answer.now }
{
    match answer {
        Answer::Values(_) => Status::Done,
        Answer::Stopped(_) => Status::Stopped,
    }
}
