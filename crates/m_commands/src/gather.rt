//! Gathers the files of a command, following its plan.
ghost use Rattle.std.specs.Prelude.{◌≡◌, IfOk, None, Some};
ghost use Rattle.m_places.specs.SourceLimits.{SourceKeepsLimits};
ghost use Rattle.command_plans.specs.Trips.{GoesAlong};
ghost use Rattle.command_plans.specs.Views.{files_view};
ghost use Rattle.m_commands.specs.Answer.{WorkKeepsLimits};
ghost use Rattle.m_commands.specs.Command.{IsInReach, check_plan, rules_only, plan_of, work_of, work_plan};
ghost use Rattle.m_commands.specs.inner.Courses.{IsWorkOf, work_form};

use crate::command::{Command, Form};
use crate::work::Work;
use command_plans::{
    Ending, SourceNames, fetch, gather_code_and_file, gather_source, gather_source_and_file,
};
use m_places::limits::{CODE_FILE_BYTES, FILE_BYTES};
use m_places::{Name, Seq, Source};
use m_ports::Files;
use std::alloc::{AllocError, Global};

/// Gathers the files of a command. The error is what ends the command before they are gathered.
pub fn gather<F: Files>(alloc: Global, files: &mut F, command: &Command) -> Result<Work, Ending>
    requires { IsInReach command.now }
    ensures along { GoesAlong (plan_of command.now) (files_view F.known_files F.attempts F.taken files.old)
        (files_view F.known_files F.attempts F.taken files.new) result }
    ensures within { IfOk result WorkKeepsLimits }
    ensures kind { IfOk result (IsWorkOf command.now) }
{
    match command {
        Command::Run(names, household) => gather_work(alloc, files, Form::Run, names, household),
        Command::Serve(names, household) => {
            gather_work(alloc, files, Form::Serve, names, household)
        }
        Command::Batch(names, table) => gather_work(alloc, files, Form::Batch, names, table),
        Command::Cases(names, table) => gather_work(alloc, files, Form::Cases, names, table),
        Command::Large(n) => Ok(Work::Large(*n)),
        Command::Compile(names) => gather_compile(alloc, files, names),
        Command::Exec(code, household) => gather_exec(alloc, files, code, household),
        Command::Lint(names) => gather_lint(alloc, files, names),
        Command::Check(list, household, report) => {
            gather_check(alloc, files, list, household, report)
        }
    }
}

// Gathers only a source.
fn gather_compile<F: Files>(
    alloc: Global,
    files: &mut F,
    names: &SourceNames,
) -> Result<Work, Ending>
    ensures along { GoesAlong (plan_of (Command.Compile names.now)) (files_view F.known_files F.attempts F.taken files.old)
        (files_view F.known_files F.attempts F.taken files.new) result }
    ensures within { IfOk result WorkKeepsLimits }
    ensures kind { IfOk result (λ work. work_form work ≡ None) }
{
    let source = gather_source(alloc, files, names)?;
    Ok(Work::Compile(source))
}

// Gathers a code file, and then a household.
fn gather_exec<F: Files>(
    alloc: Global,
    files: &mut F,
    code: &Name,
    household: &Name,
) -> Result<Work, Ending>
    ensures along { GoesAlong (plan_of (Command.Exec code.now household.now)) (files_view F.known_files F.attempts F.taken files.old)
        (files_view F.known_files F.attempts F.taken files.new) result }
    ensures within { IfOk result WorkKeepsLimits }
    ensures kind { IfOk result (λ work. work_form work ≡ None) }
{
    let (code, rows) = gather_code_and_file(alloc, files, code, household)?;
    Ok(Work::Exec(code, rows))
}

// Gathers only a source.
fn gather_lint<F: Files>(alloc: Global, files: &mut F, names: &SourceNames) -> Result<Work, Ending>
    ensures along { GoesAlong (plan_of (Command.Lint names.now)) (files_view F.known_files F.attempts F.taken files.old)
        (files_view F.known_files F.attempts F.taken files.new) result }
    ensures within { IfOk result WorkKeepsLimits }
    ensures kind { IfOk result (λ work. work_form work ≡ None) }
{
    let source = gather_source(alloc, files, names)?;
    Ok(Work::Lint(source))
}

// Gathers the rules of a list, and then a household and a report.
fn gather_check<F: Files>(
    alloc: Global,
    files: &mut F,
    list: &Name,
    household: &Name,
    report: &Name,
) -> Result<Work, Ending>
    ensures along { GoesAlong (check_plan list.now household.now report.now) (files_view F.known_files F.attempts F.taken files.old)
        (files_view F.known_files F.attempts F.taken files.new) result }
    ensures within { IfOk result WorkKeepsLimits }
    ensures kind { IfOk result (λ work. work_form work ≡ None) }
{
    let names = rules_only(alloc, list)?;
    let source = gather_source(alloc, files, &names)?;
    let rows = fetch(alloc, files, household, FILE_BYTES)?;
    let report = fetch(alloc, files, report, CODE_FILE_BYTES)?;
    Ok(Work::Check(source, rows, report))
}

// The names of a source that has rules only. The only error is out of memory.
fn rules_only(alloc: Global, list: &Name) -> Result<SourceNames, AllocError>
    ensures { IfOk result (λ names. names ≡ rules_only list.now) }
{
    Ok(SourceNames {
        list: list.copy(alloc)?,
        driver: Name::new(alloc, b"-")?,
        requests: Name::new(alloc, b"-")?,
    })
}

// Gathers a source, and then one more file.
fn gather_work<F: Files>(
    alloc: Global,
    files: &mut F,
    form: Form,
    names: &SourceNames,
    behind: &Name,
) -> Result<Work, Ending>
    ensures along { GoesAlong (work_plan names.now behind.now (work_of form)) (files_view F.known_files F.attempts F.taken files.old)
        (files_view F.known_files F.attempts F.taken files.new) result }
    ensures within { IfOk result WorkKeepsLimits }
    ensures kind { IfOk result (λ work. work_form work ≡ Some form) }
{
    let (source, bytes) = gather_source_and_file(alloc, files, names, behind)?;
    Ok(work_of(form, source, bytes))
}

// The work of a command of this form.
fn work_of(form: Form, source: Source, bytes: Seq<u8>) -> Work
    requires { SourceKeepsLimits source }
    ensures work { result ≡ work_of form source bytes }
    ensures within { WorkKeepsLimits result }
    ensures kind { work_form result ≡ Some form }
{
    match form {
        Form::Run => Work::Run(source, bytes),
        Form::Serve => Work::Serve(source, bytes),
        Form::Batch => Work::Batch(source, bytes),
        Form::Cases => Work::Cases(source, bytes),
    }
}
