//! The calls that gather a source or a code file. Each follows its plan.
ghost use Rattle.std.specs.Prelude.{◌≡◌, ◌≤◌, IfOk, length};
ghost use Rattle.m_places.specs.declared.limits.TheConstants.{CODE_FILE_BYTES, LIST_FILES, RULE_BYTES};
ghost use Rattle.command_plans.specs.Trips.{GoesAlong};
ghost use Rattle.command_plans.specs.Views.{files_view};
ghost use Rattle.m_places.specs.SourceLimits.{TextsAreWithin, FileIsWithin, SourceKeepsLimits};
ghost use Rattle.command_plans.specs.Source.{code_file_plan, is_none, list_plan, rules_plan, optional_plan, parts_plan, source_file_plan, source_plan};

use crate::list_fault::ListFault;
use crate::listing::Listing;
use crate::read_listing::read_list;
use crate::source::SourceNames;
use crate::{Ending, Refusal, fetch};
use m_places::limits::{CODE_FILE_BYTES, FILE_BYTES, RULE_BYTES};
use m_places::{Name, Seq, Source, Text};
use m_ports::Files;
use std::alloc::Global;

// The name that means: no driver, or no requests.
const NONE: &[u8] = b"-";

/// Gathers a source: the list, its rule files in order, the driver and the requests. The error is the first file that
/// can't be read or is rejected.
pub fn gather_source<F: Files>(
    alloc: Global,
    files: &mut F,
    names: &SourceNames,
) -> Result<Source, Ending>
    ensures along { GoesAlong (source_plan names.now) (files_view F.known_files F.attempts F.taken files.old)
        (files_view F.known_files F.attempts F.taken files.new) result }
    ensures within { IfOk result SourceKeepsLimits }
{
    let Listing {
        application,
        files: rules,
    } = gather_list(alloc, files, &names.list)?;
    let texts = gather_rules(alloc, files, rules.as_slice())?;
    gather_parts(alloc, files, names, application, texts)
}

/// Gathers a source, and then the file of this name.
pub fn gather_source_and_file<F: Files>(
    alloc: Global,
    files: &mut F,
    names: &SourceNames,
    name: &Name,
) -> Result<(Source, Seq<u8>), Ending>
    ensures along { GoesAlong (source_file_plan names.now name.now) (files_view F.known_files F.attempts F.taken files.old)
        (files_view F.known_files F.attempts F.taken files.new) result }
    ensures within { IfOk result (λ gathered. SourceKeepsLimits gathered.0) }
{
    let source = gather_source(alloc, files, names)?;
    let bytes = fetch(alloc, files, name, FILE_BYTES)?;
    Ok((source, bytes))
}

/// Gathers the code file of the first name, and then the file of the second.
pub fn gather_code_and_file<F: Files>(
    alloc: Global,
    files: &mut F,
    code: &Name,
    name: &Name,
) -> Result<(Seq<u8>, Seq<u8>), Ending>
    ensures along { GoesAlong (code_file_plan code.now name.now) (files_view F.known_files F.attempts F.taken files.old)
        (files_view F.known_files F.attempts F.taken files.new) result }
    ensures within { IfOk result (λ gathered. length gathered.0 ≤ CODE_FILE_BYTES) }
{
    let bytes = fetch(alloc, files, code, CODE_FILE_BYTES)?;
    let more = fetch(alloc, files, name, FILE_BYTES)?;
    Ok((bytes, more))
}

// Fetches the list, and reads it.
fn gather_list<F: Files>(alloc: Global, files: &mut F, name: &Name) -> Result<Listing, Ending>
    ensures along { GoesAlong (list_plan name.now) (files_view F.known_files F.attempts F.taken files.old)
        (files_view F.known_files F.attempts F.taken files.new) result }
    ensures few { IfOk result (λ listing. length listing.files ≤ LIST_FILES) }
{
    let bytes = fetch(alloc, files, name, FILE_BYTES)?;
    match read_list(alloc, bytes.as_slice()) {
        Ok(listing) => Ok(listing),
        Err(ListFault::Memory) => Err(Ending::Memory),
        Err(ListFault::BadLine(line)) => Err(Ending::Refused(Refusal::ListLine(line))),
        Err(ListFault::TooManyFiles) => Err(Ending::Refused(Refusal::TooManyFiles)),
    }
}

// Fetches the rule files.
fn gather_rules<F: Files>(alloc: Global, files: &mut F, names: &[Name]) -> Result<Seq<Text>, Ending>
    requires { length names.now ≤ LIST_FILES }
    ensures along { GoesAlong (rules_plan RULE_BYTES names.now) (files_view F.known_files F.attempts F.taken files.old)
        (files_view F.known_files F.attempts F.taken files.new) result }
    ensures within { IfOk result TextsAreWithin }
{
    let mut texts = Vec::new(alloc);
    let mut left = RULE_BYTES;
    for name in names {
        let bytes = fetch(alloc, files, name, FILE_BYTES.min(left))?;
        left -= bytes.as_slice().len() as u64;
        let name = name.copy(alloc)?;
        texts.push(Text { name, bytes })?;
    }
    Ok(Seq::from_vec(texts))
}

/// Whether a name is `-`, which means that there is no driver, or no requests.
pub fn is_none(name: &Name) -> bool
    ensures { result ≡ is_none name.now }
{
    name.bytes() == NONE
}

/// Fetches the file of this name, unless the name is `-`.
pub fn gather_optional<F: Files>(
    alloc: Global,
    files: &mut F,
    name: &Name,
) -> Result<Option<Seq<u8>>, Ending>
    ensures along { GoesAlong (optional_plan name.now) (files_view F.known_files F.attempts F.taken files.old)
        (files_view F.known_files F.attempts F.taken files.new) result }
    ensures within { IfOk result FileIsWithin }
{
    if is_none(name) {
        return Ok(None);
    }
    let bytes = fetch(alloc, files, name, FILE_BYTES)?;
    Ok(Some(bytes))
}

// Fetches the files after the rule files.
fn gather_parts<F: Files>(
    alloc: Global,
    files: &mut F,
    names: &SourceNames,
    application: Name,
    texts: Seq<Text>,
) -> Result<Source, Ending>
    ensures along { GoesAlong (parts_plan names.now application texts) (files_view F.known_files F.attempts F.taken files.old)
        (files_view F.known_files F.attempts F.taken files.new) result }
    ensures texts { IfOk result (λ source. source.texts ≡ texts) }
    ensures driver { IfOk result (λ source. FileIsWithin source.driver) }
    ensures requests { IfOk result (λ source. FileIsWithin source.requests) }
{
    let driver = gather_optional(alloc, files, &names.driver)?;
    let requests = gather_optional(alloc, files, &names.requests)?;
    Ok(Source {
        application,
        texts,
        driver,
        requests,
    })
}
