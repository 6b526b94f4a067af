//! The program of the worked rows: it checks what `m_tax` and `m_survey` print for given words, files and input.
//!
//! Uses the two programs' calls over files in memory, and worked_rows for the rows. Knows nothing of what the commands
//! mean.
//!
//! Rows whose names begin with `survey_` are rows of `m_survey`, all others are rows of `m_tax`.
//!
//! A row is a folder of `rows/` in `data/`, as worked_rows specifies; files that it doesn't have are taken from
//! `shared/`. Rows that differ are printed, and at the end the numbers of rows that passed and failed.
//!
//! Each run must have the row's text, status and `tried`, also with an injected failure; only if a write fails before
//! the end of the text, the text before it is written, and the status is 4.
#![tactic(auto)]

use m_commands::m_tax;
use m_ports::{MemFiles, MemSink, MemSource};
use std::alloc::{AllocError, Global};
use std::io;
use std::rt::Files;
use std::thread::Threads;
use survey_commands::m_survey;
use worked_rows::{Mishap, Mishaps, Row, read_row, row_names};

/// Runs a row with this failure. Gives the observation in the form of the expected one.
fn run<R: Threads + Sync>(
    rt: &R,
    alloc: Global,
    name: &str,
    row: &Row,
    mishap: &Mishap<'_>,
) -> Result<Vec<u8>, AllocError> {
    let words = row.words(alloc)?;
    let files = row.files_after(alloc, mishap)?;
    let mut files = MemFiles::new(alloc, files, mishap.failing_fetch(alloc));
    let typed = Vec::from_slice(alloc, row.typed())?;
    let mut input = MemSource::new(typed, mishap.piece(), mishap.failing_read(alloc));
    let mut out = MemSink::new(alloc, mishap.piece(), mishap.failing_write(alloc))?;
    let words = words.as_slice();
    let status = if name.starts_with("survey_") {
        m_survey(rt, alloc, words, &mut files, &mut out)
    } else {
        m_tax(rt, alloc, words, &mut files, &mut input, &mut out)
    };
    row.seen(alloc, &out, status.number(), &files)
}

/// Runs a row once, and prints the observation if it differs. Gives whether the row passed.
fn run_holds<R: Threads + Sync + Print + AllocGlobal>(
    rt: &R,
    name: &str,
    row: &Row,
    mishap: &Mishap<'_>,
) -> io::Result<bool> {
    let wanted = row.wanted(rt.alloc(), mishap)?;
    let seen = run(rt, rt.alloc(), name, row, mishap)?;
    if seen.as_slice() == wanted.as_slice() {
        return Ok(true);
    }
    let line = mishap.line;
    let number = mishap.number;
    let text = str::from_utf8(seen.as_slice()).unwrap_or("no text");
    println!(rt; "{name} ({line}: {number}): {text}")?;
    Ok(false)
}

/// Runs a row for each number of a line of its `mishaps`.
fn line_holds<R: Threads + Sync + Print + AllocGlobal>(
    rt: &R,
    name: &str,
    row: &Row,
    line: &str,
) -> io::Result<bool> {
    let Some(mishaps) = Mishaps::new(line, row.files()) else {
        println!(rt; "{name}: no mishap of this row: {line}")?;
        return Ok(false);
    };
    for number in mishaps.first..=mishaps.last {
        if !run_holds(rt, name, row, &mishaps.at(number))? {
            return Ok(false);
        }
    }
    Ok(true)
}

/// Runs a row for each line of its `mishaps`.
fn row_holds<R: Threads + Sync + Print + AllocGlobal>(
    rt: &R,
    name: &str,
    row: &Row,
) -> io::Result<bool> {
    for line in row.mishaps().split('\n') {
        if !line_holds(rt, name, row, line)? {
            return Ok(false);
        }
    }
    Ok(true)
}

/// Runs the row of this name.
fn is_done<R: Threads + Sync + Files + Print + AllocGlobal + Clone + Drop>(
    rt: &R,
    name: &str,
) -> io::Result<bool> {
    let row = read_row(rt, name)?;
    row_holds(rt, name, &row)
}

fn main(rt: HostRuntime) -> io::Result<()> {
    let mut passed = 0u64;
    let mut failed = 0u64;
    for name in row_names(&rt)? {
        if is_done(&rt, name.as_str())? {
            passed = passed.saturating_add(1);
        } else {
            failed = failed.saturating_add(1);
        }
    }
    println!(rt; "rows: {passed} passed, {failed} failed")
}
