//! The words of the command line.
ghost use Rattle.std.specs.Prelude.{◌≡◌, IfOk, IfSome};
ghost use Rattle.m_commands.specs.Command.{IsInReach, check_command, command_of, compile_command, exec_command};
ghost use Rattle.m_commands.specs.Command.{form_of, large_command, large_number, lint_command, of_form, source_command};

use command_plans::{SourceNames, names_of};
use m_places::limits::LARGE;
use m_places::{Name, Word};
use m_text::{is_text, whole_number};
use std::alloc::{AllocError, Global};

/// A command, with the names of its files.
#[derive(Drop)]
pub enum Command {
    /// Compiles the source, and prints the answer to the household of this name.
    Run(SourceNames, Name),
    /// Compiles the source, and executes the lines of the input in a session that starts with the household of this
    /// name.
    Serve(SourceNames, Name),
    /// Compiles the source, and prints the answers to the rows of the table of this name.
    Batch(SourceNames, Name),
    /// Compiles the generated source of this many inputs, and prints its answer to the generated household.
    Large(u32),
    /// Compiles the source, and writes its code file.
    Compile(SourceNames),
    /// Reads the code file of the first name, and prints its answer to the household of the second.
    Exec(Name, Name),
    /// Makes the base of the rules of the list (the first name), and prints whether the report (the third) is a sound
    /// derivation over the household (the second).
    Check(Name, Name, Name),
    /// Compiles the source, and prints the findings about it.
    Lint(SourceNames),
    /// Compiles the source, and prints the expectations of the table of this name that aren't met.
    Cases(SourceNames, Name),
}

/// The forms of the commands over a source and one more file.
#[derive(Clone, Copy)]
pub enum Form {
    Run,
    Serve,
    Batch,
    Cases,
}

/// The command of these words, or None. The only error is out of memory.
pub fn command_of(alloc: Global, words: &[Word]) -> Result<Option<Command>, AllocError>
    ensures command { IfOk result (λ command. command ≡ command_of words.now) }
    ensures in_reach { IfOk result (λ command. IfSome command IsInReach) }
{
    if let Some(command) = large_command(words) {
        return Ok(Some(command));
    }
    if let Some(command) = exec_command(alloc, words)? {
        return Ok(Some(command));
    }
    if let Some(command) = compile_command(alloc, words)? {
        return Ok(Some(command));
    }
    if let Some(command) = check_command(alloc, words)? {
        return Ok(Some(command));
    }
    if let Some(command) = lint_command(alloc, words)? {
        return Ok(Some(command));
    }
    source_command(alloc, words)
}

// The command `large N` of these words, or None.
fn large_command(words: &[Word]) -> Option<Command>
    ensures command { result ≡ large_command words.now }
    ensures in_reach { IfSome result IsInReach }
{
    let [word, number] = words else {
        return None;
    };
    if word.bytes() != b"large".as_slice() {
        return None;
    }
    let n = large_number(number.bytes())?;
    Some(Command::Large(n))
}

// The number of a word of one to six digits that `large N` accepts.
fn large_number(word: &[u8]) -> Option<u32>
    ensures number { result ≡ large_number word.now }
    ensures in_reach { IfSome result (λ n. IsInReach (Command.Large n)) }
{
    if word.len() > 6 {
        return None;
    }
    let n = whole_number(word)?;
    if 1 <= n && n <= LARGE { Some(n) } else { None }
}

// The command `exec` of these words, or None. The only error is out of memory.
fn exec_command(alloc: Global, words: &[Word]) -> Result<Option<Command>, AllocError>
    ensures command { IfOk result (λ command. command ≡ exec_command words.now) }
    ensures in_reach { IfOk result (λ command. IfSome command IsInReach) }
{
    let [word, code, household] = words else {
        return Ok(None);
    };
    if word.bytes() != b"exec".as_slice() {
        return Ok(None);
    }
    if !(is_text(code.bytes()) && is_text(household.bytes())) {
        return Ok(None);
    }
    let code = code.copy(alloc)?;
    Ok(Some(Command::Exec(code, household.copy(alloc)?)))
}

// The command `compile` of these words, or None. The only error is out of memory.
fn compile_command(alloc: Global, words: &[Word]) -> Result<Option<Command>, AllocError>
    ensures command { IfOk result (λ command. command ≡ compile_command words.now) }
    ensures in_reach { IfOk result (λ command. IfSome command IsInReach) }
{
    let [word, list, driver, requests] = words else {
        return Ok(None);
    };
    if word.bytes() != b"compile".as_slice() {
        return Ok(None);
    }
    let are_names = is_text(list.bytes()) && is_text(driver.bytes()) && is_text(requests.bytes());
    if !are_names {
        return Ok(None);
    }
    let names = names_of(alloc, list, driver, requests)?;
    Ok(Some(Command::Compile(names)))
}

// The command `check` of these words, or None. The only error is out of memory.
fn check_command(alloc: Global, words: &[Word]) -> Result<Option<Command>, AllocError>
    ensures command { IfOk result (λ command. command ≡ check_command words.now) }
    ensures in_reach { IfOk result (λ command. IfSome command IsInReach) }
{
    let [word, list, household, report] = words else {
        return Ok(None);
    };
    if word.bytes() != b"check".as_slice() {
        return Ok(None);
    }
    let are_names = is_text(list.bytes()) && is_text(household.bytes()) && is_text(report.bytes());
    if !are_names {
        return Ok(None);
    }
    let list = list.copy(alloc)?;
    let household = household.copy(alloc)?;
    Ok(Some(Command::Check(list, household, report.copy(alloc)?)))
}

// The command `lint` of these words, or None. The only error is out of memory.
fn lint_command(alloc: Global, words: &[Word]) -> Result<Option<Command>, AllocError>
    ensures command { IfOk result (λ command. command ≡ lint_command words.now) }
    ensures in_reach { IfOk result (λ command. IfSome command IsInReach) }
{
    let [word, list, driver, requests] = words else {
        return Ok(None);
    };
    if word.bytes() != b"lint".as_slice() {
        return Ok(None);
    }
    let are_names = is_text(list.bytes()) && is_text(driver.bytes()) && is_text(requests.bytes());
    if !are_names {
        return Ok(None);
    }
    let names = names_of(alloc, list, driver, requests)?;
    Ok(Some(Command::Lint(names)))
}

// The command over a source and one more file of these words, or None. The only error is out of memory.
fn source_command(alloc: Global, words: &[Word]) -> Result<Option<Command>, AllocError>
    ensures command { IfOk result (λ command. command ≡ source_command words.now) }
    ensures in_reach { IfOk result (λ command. IfSome command IsInReach) }
{
    let [word, list, driver, requests, behind] = words else {
        return Ok(None);
    };
    let are_names = is_text(list.bytes())
        && is_text(driver.bytes())
        && is_text(requests.bytes())
        && is_text(behind.bytes());
    if !are_names {
        return Ok(None);
    }
    let Some(form) = form_of(word.bytes()) else {
        return Ok(None);
    };
    let behind = behind.copy(alloc)?;
    let names = names_of(alloc, list, driver, requests)?;
    Ok(Some(of_form(form, names, behind)))
}

// The form of a command over a source and one more file, by its word.
fn form_of(word: &[u8]) -> Option<Form>
    ensures { result ≡ form_of word.now }
{
    if word == b"run".as_slice() {
        Some(Form::Run)
    } else if word == b"serve".as_slice() {
        Some(Form::Serve)
    } else if word == b"batch".as_slice() {
        Some(Form::Batch)
    } else if word == b"cases".as_slice() {
        Some(Form::Cases)
    } else {
        None
    }
}

// The command of this form.
fn of_form(form: Form, names: SourceNames, behind: Name) -> Command
    ensures command { result ≡ of_form form names behind }
    ensures in_reach { IsInReach result }
{
    match form {
        Form::Run => Command::Run(names, behind),
        Form::Serve => Command::Serve(names, behind),
        Form::Batch => Command::Batch(names, behind),
        Form::Cases => Command::Cases(names, behind),
    }
}
