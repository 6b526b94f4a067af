//! The calls that print a line. They take no memory, so an error or a failed read is reported even when memory has run
//! out.
ghost use Rattle.std.specs.Prelude.{◌≡◌, MatchResult};
ghost use Rattle.tax_print.specs.FaultLines.{fault_line};
ghost use Rattle.command_plans.specs.Printing.{Prints, ReportsEnding};
ghost use Rattle.command_plans.specs.Views.{output_view};

use crate::{Ending, Status};
use m_ports::{Failed, Sink};
use tax_print::{Fault, give_fault};

/// The status after printing: `own` if the whole text was written, else `WriteFault`.
pub fn printed(given: Result<(), Failed>, own: Status) -> Status
    ensures { MatchResult given (λ _. result ≡ own) (λ _. result ≡ Status.WriteFault) }
{
    match given {
        Ok(()) => own,
        Err(Failed) => Status::WriteFault,
    }
}

/// Prints the line of a fault and gives the status `own`, or `WriteFault` if a write fails. Takes no memory.
pub fn print_fault<K: Sink>(out: &mut K, fault: Fault<'_>, own: Status) -> Status
    ensures { Prints (fault_line fault.entry) own (output_view K.written K.faults out.old) (output_view K.written K.faults out.new) result }
{
    printed(give_fault(fault, out), own)
}

/// Prints the line of what ended a command (none for out of memory) and gives its status. Takes no memory.
pub fn report_ending<K: Sink>(out: &mut K, ending: &Ending) -> Status
    ensures { ReportsEnding ending.now (output_view K.written K.faults out.old) (output_view K.written K.faults out.new) result }
{
    match ending {
        Ending::Refused(refusal) => print_fault(out, refusal.fault(), Status::Refused),
        Ending::Unreadable(name) => {
            let fault = Fault::OfName(b"unreadable ", name.bytes());
            print_fault(out, fault, Status::ReadFault)
        }
        Ending::Memory => Status::Memory,
    }
}
