ghost use Rattle.std.specs.Prelude.{◌≡◌, ◌+◌, ◌≤◌, ◌<◌, length, IfOk, Ok, Err};
ghost use Rattle.m_places.specs.declared.limits.TheConstants.{FILE_BYTES};
ghost use Rattle.m_places.specs.Refusals.{Outcome, Says};
ghost use Rattle.m_text.specs.Lines.{lines_of};
ghost use Rattle.command_plans.specs.declared.list_fault.ListFault.TheVariants.{Memory, TooManyFiles};
ghost use Rattle.command_plans.specs.Files.{files_of};
ghost use Rattle.command_plans.specs.Listing.{IsListing, IsListFault};
ghost use Rattle.command_plans.specs.inner.Reading.{is_word, is_file_line, first_bad_from, list_of};

use crate::list_fault::ListFault;
use crate::listing::Listing;
use m_places::limits::{FILE_NAME_BYTES, LIST_FILES};
use m_places::{Name, Seq};
use m_text::{first_line, is_text, is_word};
use std::alloc::Global;

/// Reads a list file. Line 1 is the application, a word of M, which may be reserved. Each later line that isn't empty
/// is the name of a file.
///
/// `iliad\na.m\n` lists the application `iliad` and the file `a.m`.
pub fn read_list(alloc: Global, bytes: &[u8]) -> Result<Listing, ListFault>
    requires { length bytes.now ≤ FILE_BYTES }
    ensures outcome { Outcome Memory result (IsListing bytes.now) (IsListFault bytes.now) }
{
    read_lines(alloc, bytes)
}

// Reads the lines of a list file.
fn read_lines(alloc: Global, bytes: &[u8]) -> Result<Listing, ListFault>
    requires { length bytes.now ≤ FILE_BYTES }
    ensures outcome { Says Memory result (λ listing. listing) (list_of bytes.now) }
{
    let Some((application, rest)) = first_line(bytes) else {
        return Err(ListFault::BadLine(1));
    };
    if !is_application(application) {
        return Err(ListFault::BadLine(1));
    }
    if let Some(number) = first_bad_line(rest) {
        return Err(ListFault::BadLine(number));
    }
    let files = read_files(alloc, rest)?;
    let application = Name::new(alloc, application)?;
    Ok(Listing {
        application,
        files: Seq::from_vec(files),
    })
}

// Whether a text is a word of M, reserved or not.
fn is_application(text: &[u8]) -> bool
    ensures { result ≡ is_word text.now }
{
    is_word(text)
}

// The number of the first line that isn't a file line. These lines are numbered from 2.
fn first_bad_line(bytes: &[u8]) -> Option<u32>
    requires { length bytes.now ≤ FILE_BYTES }
    ensures { result ≡ first_bad_from 2 (lines_of bytes.now) }
{
    let mut number = 2;
    let mut rest = bytes;
    while let Some((line, behind)) = first_line(rest) {
        if !is_file_line(line) {
            return Some(number);
        }
        number += 1;
        rest = behind;
    }
    None
}

// Whether a line is a file name, or empty.
fn is_file_line(line: &[u8]) -> bool
    ensures { result ≡ is_file_line line.now }
{
    line.len() <= FILE_NAME_BYTES && is_text(line)
}

// The names: the lines that aren't empty.
fn read_files(alloc: Global, bytes: &[u8]) -> Result<Vec<Name>, ListFault>
    ensures outcome { Outcome Memory result
        (λ files. files.items ≡ files_of (lines_of bytes.now))
        (λ fault. (fault ≡ TooManyFiles) × (LIST_FILES < length (files_of (lines_of bytes.now)))) }
    ensures few { IfOk result (λ files. length files.items ≤ LIST_FILES) }
{
    let mut files = Vec::new(alloc);
    let mut rest = bytes;
    while let Some((line, behind)) = first_line(rest) {
        if !line.is_empty() {
            if files.len() == LIST_FILES {
                return Err(ListFault::TooManyFiles);
            }
            files.push(Name::new(alloc, line)?)?;
        }
        rest = behind;
    }
    Ok(files)
}
