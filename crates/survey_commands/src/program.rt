//! The top call.
ghost use Rattle.std.specs.Prelude.{◌≡◌, ◌<◌, ℕ, List, Some, false};
ghost use Rattle.command_plans.specs.Attempts.{TakesWithin};
ghost use Rattle.command_plans.specs.Courses.{IsUsageReport};
ghost use Rattle.command_plans.specs.Printing.{Prints};
ghost use Rattle.command_plans.specs.Views.{Disk, files_view, output_view};
ghost use Rattle.command_plans.specs.declared.status.Status.{Status};
ghost use Rattle.m_ports.specs.Counts.{Rose};
ghost use Rattle.survey_commands.specs.Command.{command_of, limit_of, writes_early};
ghost use Rattle.survey_commands.specs.Clauses.{PrintsOutput, ReadsInOrder, WritesFront, StopsInFront, AnswersValid};
ghost use Rattle.survey_commands.specs.Lines.{usage_line};
ghost use Rattle.survey_commands.specs.Output.{Output, AreOneOutput};
ghost use Rattle.survey_commands.specs.inner.Courses.{Course};

use crate::answer::answer;
use crate::command::{Command, command_of};
use crate::gather::gather;
use command_plans::{Status, printed, report_ending};
use m_places::Word;
use m_ports::{Files, Sink, give_pieces};
use std::alloc::Global;
use std::thread::Threads;

const USAGE: &[u8] =
    b"usage: m_survey table LIST DRIVER REQUESTS TABLE, table CODEFILE TABLE, facts LIST DRIVER REQUESTS RANGES, version";

// Prints the usage line. Takes no memory.
fn print_usage<K: Sink>(out: &mut K) -> Status
    ensures { Prints usage_line Status.Usage (output_view K.written K.faults out.old) (output_view K.written K.faults out.new) result }
{
    printed(give_pieces(out, &[USAGE, b"\n"]), Status::Usage)
}

// Executes the command of these words.
fn perform<R: Threads + Sync, F: Files, K: Sink>(
    rt: &R,
    alloc: Global,
    words: &[Word],
    files: &mut F,
    out: &mut K,
) -> Status
    ensures { Course words.now (files_view F.known_files F.attempts F.taken files.old) (files_view F.known_files F.attempts F.taken files.new)
        (output_view K.written K.faults out.old) (output_view K.written K.faults out.new) result }
{
    match command_of(alloc, words) {
        Ok(Some(command)) => {
            let status = act(rt, alloc, &command, files, out);
            drop(command);
            status
        }
        Ok(None) => print_usage(out),
        Err(_) => Status::Memory,
    }
}

// Executes a command: gathers its files, and answers them.
fn act<R: Threads + Sync, F: Files, K: Sink>(
    rt: &R,
    alloc: Global,
    command: &Command,
    files: &mut F,
    out: &mut K,
) -> Status
    ensures { (words : List (List ℕ)) → command_of words ≡ Some command.now
        → Course words (files_view F.known_files F.attempts F.taken files.old) (files_view F.known_files F.attempts F.taken files.new)
        (output_view K.written K.faults out.old) (output_view K.written K.faults out.new) result }
{
    match gather(alloc, files, command) {
        Ok(work) => {
            let status = answer(rt, alloc, &work, out);
            drop(work);
            status
        }
        Err(ending) => {
            let status = report_ending(out, &ending);
            drop(ending);
            status
        }
    }
}

/// Executes the command of these words: fetches its files, and prints its answer.
///
/// The words are those after the program's name. Everything is written to `out`, errors too.
pub fn m_survey<R: Threads + Sync, F: Files, K: Sink>(
    rt: &R,
    alloc: Global,
    words: &[Word],
    files: &mut F,
    out: &mut K,
) -> Status
    // If the files' contents are known (unless the command fetches none), and neither reading, writing nor memory
    // failed, the appended text and the status are an `Output` of the words and the files.
    ensures text { PrintsOutput words.now (files_view F.known_files F.attempts F.taken files.old)
        (output_view K.written K.faults out.old) (output_view K.written K.faults out.new) result }

    // The attempts to read files are those of `fetches_of`, at most the last of them failed, and a read fault is
    // reported only then. For each attempt at most one byte past the file's limit is read.
    ensures reading { ReadsInOrder words.now (files_view F.known_files F.attempts F.taken files.old) (files_view F.known_files F.attempts F.taken files.new)
        (output_view K.written K.faults out.old) (output_view K.written K.faults out.new) result }
    ensures taken { TakesWithin (limit_of words.now) (files_view F.known_files F.attempts F.taken files.old)
        (files_view F.known_files F.attempts F.taken files.new) result }

    // A write fault is reported exactly if a write failed, and what was written is a prefix of a whole text.
    ensures write_fault { result ≡ Status.WriteFault → Rose (K.faults out.old) (K.faults out.new) }
    ensures write_reported { K.faults out.old < K.faults out.new → result ≡ Status.WriteFault }
    ensures writing { WritesFront words.now (files_view F.known_files F.attempts F.taken files.old) (files_view F.known_files F.attempts F.taken files.new)
        (output_view K.written K.faults out.old) (output_view K.written K.faults out.new) result }

    // If memory ran out, nothing was written, except by a command that writes in parts, which has written a prefix of
    // an output.
    ensures memory { result ≡ Status.Memory → writes_early words.now ≡ false → K.written out.new ≡ K.written out.old }
    ensures memory_front { StopsInFront words.now (files_view F.known_files F.attempts F.taken files.old)
        (output_view K.written K.faults out.old) (output_view K.written K.faults out.new) result }

    // Valid words and files are answered, unless a read, a write or memory failed.
    ensures completeness { AnswersValid words.now (files_view F.known_files F.attempts F.taken files.old)
        (files_view F.known_files F.attempts F.taken files.new)
        (output_view K.written K.faults out.old) (output_view K.written K.faults out.new) result }

    // The usage line is printed only for words that are no command, and for these unless a write or memory failed.
    ensures usage { IsUsageReport (command_of words.now) result }
{
    perform(rt, alloc, words, files, out)
}

/// The same words and files have one output: one text and one status. This leaves open which of several cycles or
/// recursions an error shows.
pub fn one_output()
    ensures { (words : List (List ℕ)) (disk : Disk) (one other : List ℕ) (status outcome : Status) →
        Output words disk one status → Output words disk other outcome → AreOneOutput one status other outcome }
{}
