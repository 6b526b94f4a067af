//! Gathers the files of a command, following its plan.
ghost use Rattle.std.specs.Prelude.{◌≡◌, true, false, IfOk};
ghost use Rattle.command_plans.specs.Trips.{GoesAlong};
ghost use Rattle.command_plans.specs.Views.{files_view};
ghost use Rattle.survey_commands.specs.Answer.{WorkKeepsLimits};
ghost use Rattle.survey_commands.specs.Command.{plan_of};
ghost use Rattle.survey_commands.specs.inner.Courses.{IsWorkOf, work_in_parts};

use crate::command::Command;
use crate::work::Work;
use command_plans::{
    Ending, SourceNames, gather_code_and_file, gather_optional, gather_source,
    gather_source_and_file,
};
use m_places::Name;
use m_ports::Files;
use std::alloc::Global;

/// Gathers the files of a command. The error is what ends the command before they are gathered.
pub fn gather<F: Files>(alloc: Global, files: &mut F, command: &Command) -> Result<Work, Ending>
    ensures along { GoesAlong (plan_of command.now) (files_view F.known_files F.attempts F.taken files.old)
        (files_view F.known_files F.attempts F.taken files.new) result }
    ensures within { IfOk result WorkKeepsLimits }
    ensures kind { IfOk result (IsWorkOf command.now) }
{
    match command {
        Command::Table(names, table) => gather_table(alloc, files, names, table),
        Command::Facts(names, ranges) => gather_facts(alloc, files, names, ranges),
        Command::CodeTable(code, table) => gather_code_table(alloc, files, code, table),
        Command::Version => Ok(Work::Version),
    }
}

// Gathers a source, and then a table.
fn gather_table<F: Files>(
    alloc: Global,
    files: &mut F,
    names: &SourceNames,
    table: &Name,
) -> Result<Work, Ending>
    ensures along { GoesAlong (plan_of (Command.Table names.now table.now)) (files_view F.known_files F.attempts F.taken files.old)
        (files_view F.known_files F.attempts F.taken files.new) result }
    ensures within { IfOk result WorkKeepsLimits }
    ensures kind { IfOk result (λ work. work_in_parts work ≡ true) }
{
    let (source, rows) = gather_source_and_file(alloc, files, names, table)?;
    Ok(Work::Table(source, rows))
}

// Gathers a source, and then ranges, unless their name is `-`.
fn gather_facts<F: Files>(
    alloc: Global,
    files: &mut F,
    names: &SourceNames,
    ranges: &Name,
) -> Result<Work, Ending>
    ensures along { GoesAlong (plan_of (Command.Facts names.now ranges.now)) (files_view F.known_files F.attempts F.taken files.old)
        (files_view F.known_files F.attempts F.taken files.new) result }
    ensures within { IfOk result WorkKeepsLimits }
    ensures kind { IfOk result (λ work. work_in_parts work ≡ false) }
{
    let source = gather_source(alloc, files, names)?;
    let bytes = gather_optional(alloc, files, ranges)?;
    Ok(Work::Facts(source, bytes))
}

// Gathers a code file, and then a table.
fn gather_code_table<F: Files>(
    alloc: Global,
    files: &mut F,
    code: &Name,
    table: &Name,
) -> Result<Work, Ending>
    ensures along { GoesAlong (plan_of (Command.CodeTable code.now table.now)) (files_view F.known_files F.attempts F.taken files.old)
        (files_view F.known_files F.attempts F.taken files.new) result }
    ensures within { IfOk result WorkKeepsLimits }
    ensures kind { IfOk result (λ work. work_in_parts work ≡ true) }
{
    let (code, rows) = gather_code_and_file(alloc, files, code, table)?;
    Ok(Work::CodeTable(code, rows))
}
