//! The words of the command line.
ghost use Rattle.std.specs.Prelude.{◌≡◌, IfOk};
ghost use Rattle.survey_commands.specs.Command.{code_command, command_of, command_over, over_source, source_command, version_command};

use command_plans::{SourceNames, names_of};
use m_places::{Name, Word};
use m_text::is_text;
use std::alloc::{AllocError, Global};

/// A command, with the names of its files.
#[derive(Drop)]
pub enum Command {
    /// Compiles the source, and prints the answers to the households of the table of this name, as CSV.
    Table(SourceNames, Name),
    /// Compiles the source, and prints facts about its requested cells that hold for all households within the ranges
    /// of the file of this name; `-` means no ranges.
    Facts(SourceNames, Name),
    /// Reads the code file of the first name, and prints its answers to the table of the second, as CSV.
    CodeTable(Name, Name),
    /// Prints the version.
    Version,
}

// The forms of the commands over a source and one more file.
#[derive(Clone, Copy)]
pub(crate) enum OverSource {
    Table,
    Facts,
}

/// The command of these words, or None. The only error is out of memory.
pub fn command_of(alloc: Global, words: &[Word]) -> Result<Option<Command>, AllocError>
    ensures { IfOk result (λ command. command ≡ command_of words.now) }
{
    if let Some(command) = version_command(words) {
        return Ok(Some(command));
    }
    if let Some(command) = code_command(alloc, words)? {
        return Ok(Some(command));
    }
    source_command(alloc, words)
}

// The command `version` of these words, or None.
fn version_command(words: &[Word]) -> Option<Command>
    ensures { result ≡ version_command words.now }
{
    let [word] = words else {
        return None;
    };
    if word.bytes() != b"version".as_slice() {
        return None;
    }
    Some(Command::Version)
}

// The command `table` over a code file of these words, or None. The only error is out of memory.
fn code_command(alloc: Global, words: &[Word]) -> Result<Option<Command>, AllocError>
    ensures { IfOk result (λ command. command ≡ code_command words.now) }
{
    let [word, code, table] = words else {
        return Ok(None);
    };
    if word.bytes() != b"table".as_slice() {
        return Ok(None);
    }
    if !(is_text(code.bytes()) && is_text(table.bytes())) {
        return Ok(None);
    }
    let code = code.copy(alloc)?;
    Ok(Some(Command::CodeTable(code, table.copy(alloc)?)))
}

// The command over a source and one more file of these words, or None. The only error is out of memory.
fn source_command(alloc: Global, words: &[Word]) -> Result<Option<Command>, AllocError>
    ensures { IfOk result (λ command. command ≡ source_command words.now) }
{
    let [word, list, driver, requests, file] = words else {
        return Ok(None);
    };
    let Some(wanted) = over_source(word.bytes()) else {
        return Ok(None);
    };
    let are_names = is_text(list.bytes())
        && is_text(driver.bytes())
        && is_text(requests.bytes())
        && is_text(file.bytes());
    if !are_names {
        return Ok(None);
    }
    let file = file.copy(alloc)?;
    let names = names_of(alloc, list, driver, requests)?;
    Ok(Some(command_over(wanted, names, file)))
}

// The form of a command over a source and one more file, by its word.
fn over_source(word: &[u8]) -> Option<OverSource>
    ensures { result ≡ over_source word.now }
{
    if word == b"table".as_slice() {
        Some(OverSource::Table)
    } else if word == b"facts".as_slice() {
        Some(OverSource::Facts)
    } else {
        None
    }
}

fn command_over(wanted: OverSource, names: SourceNames, file: Name) -> Command
    ensures { result ≡ command_over wanted names file }
{
    match wanted {
        OverSource::Table => Command::Table(names, file),
        OverSource::Facts => Command::Facts(names, file),
    }
}
