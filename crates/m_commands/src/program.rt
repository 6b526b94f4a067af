//! The top call.
ghost use Rattle.std.specs.Prelude.{◌≡◌, ◌<◌, ◌⊎◌, ℕ, List, Some, false, true};
ghost use Rattle.std.specs.Io.KnownBytes.{IsAtEnd};
ghost use Rattle.m_ports.specs.Counts.{Rose};
ghost use Rattle.command_plans.specs.Attempts.{TakesWithin};
ghost use Rattle.command_plans.specs.Courses.{IsUsageReport};
ghost use Rattle.command_plans.specs.Views.{Disk, files_view, input_view, output_view};
ghost use Rattle.command_plans.specs.declared.status.Status.{Status};
ghost use Rattle.m_commands.specs.Command.{IsInReach, command_of, limit_of, reads_input, writes_early};
ghost use Rattle.m_commands.specs.Clauses.{PrintsOutput, WritesCode, KeepsInputLimit, ReadsInOrder, WritesFront, StopsInFront, AnswersValid};
ghost use Rattle.m_commands.specs.Output.{Output, AreOneOutput};
ghost use Rattle.m_commands.specs.inner.Courses.{Course};

use crate::answer::answer;
use crate::command::{Command, command_of};
use crate::gather::gather;
use command_plans::{Status, print_fault, report_ending};
use m_places::Word;
use m_ports::{Files, Sink, Source};
use std::alloc::Global;
use std::thread::Threads;
use tax_print::Fault;

/// The line that is printed if the command line isn't a command.
const USAGE: &[u8] =
    b"usage: m_tax run|serve LIST DRIVER REQUESTS HOUSEHOLD, batch LIST DRIVER REQUESTS TABLE, compile LIST DRIVER REQUESTS, exec CODEFILE HOUSEHOLD, large N, check LIST HOUSEHOLD REPORT, lint LIST DRIVER REQUESTS, cases LIST DRIVER REQUESTS TABLE";

// Executes the command of these words.
fn perform<R: Threads + Sync, F: Files, S: Source, K: Sink>(
    rt: &R,
    alloc: Global,
    words: &[Word],
    files: &mut F,
    input: &mut S,
    out: &mut K,
) -> Status
    ensures { Course words.now (files_view F.known_files F.attempts F.taken files.old) (files_view F.known_files F.attempts F.taken files.new)
        (input_view S.left S.faults input.old) (input_view S.left S.faults input.new)
        (output_view K.written K.faults out.old) (output_view K.written K.faults out.new) result }
{
    match command_of(alloc, words) {
        Ok(Some(command)) => {
            let status = act(rt, alloc, &command, files, input, out);
            drop(command);
            status
        }
        Ok(None) => print_fault(out, Fault::Words(USAGE), Status::Usage),
        Err(_) => Status::Memory,
    }
}

// Executes a command: gathers its files, and answers them.
fn act<R: Threads + Sync, F: Files, S: Source, K: Sink>(
    rt: &R,
    alloc: Global,
    command: &Command,
    files: &mut F,
    input: &mut S,
    out: &mut K,
) -> Status
    requires { IsInReach command.now }
    ensures { (words : List (List ℕ)) → command_of words ≡ Some command.now
        → Course words (files_view F.known_files F.attempts F.taken files.old) (files_view F.known_files F.attempts F.taken files.new)
        (input_view S.left S.faults input.old) (input_view S.left S.faults input.new)
        (output_view K.written K.faults out.old) (output_view K.written K.faults out.new) result }
{
    match gather(alloc, files, command) {
        Ok(work) => answer(rt, alloc, work, input, out),
        Err(ending) => {
            let status = report_ending(out, &ending);
            drop(ending);
            status
        }
    }
}

/// Executes the command of these words: fetches its files, and prints its answer.
///
/// The words are those after the program's name. Everything is written to `out`, errors too.
pub fn m_tax<R: Threads + Sync, F: Files, S: Source, K: Sink>(
    rt: &R,
    alloc: Global,
    words: &[Word],
    files: &mut F,
    input: &mut S,
    out: &mut K,
) -> Status
    // If the contents of the files and of the input are known, as far as the command reads them, and neither reading,
    // writing nor memory failed, the appended text and the status are an `Output` of the words, the files and the
    // input.
    ensures text { PrintsOutput words.now (files_view F.known_files F.attempts F.taken files.old) (input_view S.left S.faults input.old)
        (output_view K.written K.faults out.old) (output_view K.written K.faults out.new) result }

    // A `compile` that did all of its work has written the code file of its compiled source, in the form that `exec`
    // accepts.
    ensures compiled { WritesCode words.now (files_view F.known_files F.attempts F.taken files.old)
        (output_view K.written K.faults out.old) (output_view K.written K.faults out.new) result }

    // The attempts to read files are those of `fetches_of`, and at most the last of them failed. A read fault is
    // reported only then or after a failed read of the input. For each attempt at most one byte past the file's limit
    // is read.
    ensures reading { ReadsInOrder words.now (files_view F.known_files F.attempts F.taken files.old) (files_view F.known_files F.attempts F.taken files.new)
        (input_view S.left S.faults input.old) (input_view S.left S.faults input.new)
        (output_view K.written K.faults out.old) (output_view K.written K.faults out.new) result }
    ensures taken { TakesWithin (limit_of words.now) (files_view F.known_files F.attempts F.taken files.old)
        (files_view F.known_files F.attempts F.taken files.new) result }
    ensures input_left { reads_input words.now ≡ false → S.left input.new ≡ S.left input.old }
    ensures input_faults { reads_input words.now ≡ false → S.faults input.new ≡ S.faults input.old }

    // A session that did all of its work has read the input to its end.
    ensures input_end { reads_input words.now ≡ true → result ≡ Status.Done → IsAtEnd (S.left input.new) }

    // However a session ends, it has read no more of the input than the limit.
    ensures input_taken { KeepsInputLimit (input_view S.left S.faults input.old) (input_view S.left S.faults input.new) result }

    // A failed read of the input is reported, unless a write failed too.
    ensures read_reported { S.faults input.old < S.faults input.new → (result ≡ Status.ReadFault) ⊎ (result ≡ Status.WriteFault) }

    // A write fault is reported exactly if a write failed, and what was written is a prefix of a whole text, or of the
    // replies to a whole input.
    ensures write_fault { result ≡ Status.WriteFault → Rose (K.faults out.old) (K.faults out.new) }
    ensures write_reported { K.faults out.old < K.faults out.new → result ≡ Status.WriteFault }
    ensures writing { WritesFront words.now (files_view F.known_files F.attempts F.taken files.old) (files_view F.known_files F.attempts F.taken files.new)
        (input_view S.left S.faults input.old) (input_view S.left S.faults input.new)
        (output_view K.written K.faults out.old) (output_view K.written K.faults out.new) result }

    // If memory ran out, nothing was written, except by a command that writes in parts, which has written a prefix of
    // an output; and nothing was read from the input.
    ensures memory { result ≡ Status.Memory → writes_early words.now ≡ false → K.written out.new ≡ K.written out.old }
    ensures memory_front { StopsInFront words.now (files_view F.known_files F.attempts F.taken files.old)
        (output_view K.written K.faults out.old) (output_view K.written K.faults out.new) result }
    ensures memory_input { result ≡ Status.Memory → S.left input.new ≡ S.left input.old }

    // Valid words and files are answered, unless a read, a write or memory failed, or the limit of the input was
    // reached.
    ensures completeness { AnswersValid words.now (files_view F.known_files F.attempts F.taken files.old)
        (files_view F.known_files F.attempts F.taken files.new)
        (input_view S.left S.faults input.old) (input_view S.left S.faults input.new)
        (output_view K.written K.faults out.old) (output_view K.written K.faults out.new) result }

    // The usage line is printed only for words that are no command, and for these unless a write or memory failed.
    ensures usage { IsUsageReport (command_of words.now) result }
{
    perform(rt, alloc, words, files, input, out)
}

/// The same words, files and input have one output: one text and one status. This leaves open which of several cycles
/// or recursions an error shows; the code of a compiled source, on which the text of `compile` and the findings of
/// `lint` depend; and the order of the lines of a reason that a session explains. The law holds for each command.
pub fn one_output()
    ensures { (words : List (List ℕ)) (disk : Disk) (typed one other : List ℕ) (status outcome : Status) →
        Output words disk typed one status → Output words disk typed other outcome → AreOneOutput one status other outcome }
{}
