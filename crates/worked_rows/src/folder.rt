//! The folders of the rows.
use crate::row::{File, Row};
use m_places::Name;
use std::alloc::Global;
use std::fs::{read, read_dir};
use std::io;
use std::rt::Files;

/// The folder of all rows.
const ROWS: &str = "rows";

/// The folder of the shared files.
const SHARED: &str = "shared";

/// The row of this name.
pub fn read_row<R: Files + AllocGlobal + Clone + Drop>(rt: &R, name: &str) -> io::Result<Row> {
    let mut files = Vec::new(rt.alloc());
    add_row(rt, name, &mut files)?;
    Ok(Row::new(files))
}

/// Adds the files of a row, and the shared files.
fn add_row<R: Files + AllocGlobal + Clone + Drop>(
    rt: &R,
    name: &str,
    files: &mut Vec<File>,
) -> io::Result<()> {
    let folder = format!(in rt.alloc(); "{ROWS}/{name}")?;
    add_folder(rt, folder.as_str(), files)?;
    add_folder(rt, SHARED, files)
}

/// Adds the files of a folder, each with its bytes.
fn add_folder<R: Files + AllocGlobal + Clone + Drop>(
    rt: &R,
    folder: &str,
    files: &mut Vec<File>,
) -> io::Result<()> {
    for entry in read_dir(rt, folder)? {
        let entry = entry?;
        add_file(
            rt.alloc(),
            entry.file_name(),
            read(rt, entry.path())?,
            files,
        )?;
    }
    Ok(())
}

/// Adds a file.
fn add_file(alloc: Global, name: &str, bytes: Vec<u8>, files: &mut Vec<File>) -> io::Result<()> {
    let name = Name::new(alloc, name.as_bytes())?;
    files.push((name, bytes))?;
    Ok(())
}

/// The names of all rows.
pub fn row_names<R: Files + AllocGlobal + Clone + Drop>(rt: &R) -> io::Result<Vec<String>> {
    let mut names = Vec::new(rt.alloc());
    add_names(rt, &mut names)?;
    Ok(names)
}

/// Adds the names of all rows.
fn add_names<R: Files + AllocGlobal + Clone + Drop>(
    rt: &R,
    names: &mut Vec<String>,
) -> io::Result<()> {
    for entry in read_dir(rt, ROWS)? {
        let entry = entry?;
        names.push(String::from_str(rt.alloc(), entry.file_name())?)?;
    }
    Ok(())
}
