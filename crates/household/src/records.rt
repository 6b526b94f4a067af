//! Comma-separated records, read one after another by the crate `csv`. The bytes are in memory, so
//! the only error is running out of memory. `m_cases` reads its records by this module too.
ghost use Rattle.std.specs.Prelude.{◌≡◌, ◌<◌, ◌≤◌, IfOk, IsErr, MatchResult, Ok, [], get_or};
ghost use Rattle.csv.specs.Records.{fields_of};
ghost use Rattle.m_places.specs.declared.limits.TheConstants.{ROWS};
ghost use Rattle.household.specs.Records.{records_of};
ghost use Rattle.household.specs.Household.{line_behind};
ghost use Rattle.household.specs.Reader.{IsNext, left_of};
ghost use Rattle.household.specs.declared.fault.HouseholdFault.TheVariants.{TooManyRows};

use crate::HouseholdFault;
pub use crate::reader::Records;
use csv::{ByteRecord, Error, ReaderBuilder};
use m_places::limits::ROWS;
use std::alloc::{AllocError, Global};

/// A reader of the records of bytes: no header row, records of any length, no trimming. Takes no
/// memory before the first record is read.
pub fn records_of(alloc: Global, bytes: &[u8]) -> Records<'_>
    ensures { left_of result ≡ records_of bytes.now }
{
    let reader = ReaderBuilder::new()
        .has_headers(false)
        .flexible(true)
        .from_reader(alloc, bytes);
    Records { reader }
}

/// Reads the next record into `row`, and returns whether there was one. Its only error is running
/// out of memory: the other errors of `csv` are about records of unequal lengths, text encoding and
/// I/O, none of which occur for byte records in memory.
pub fn next_record(records: &mut Records<'_>, row: &mut ByteRecord) -> Result<bool, AllocError>
    ensures { IfOk result (λ found. IsNext records.old found (fields_of row.new) records.new) }
{
    let read = records.reader.read_byte_record(row);
    found_or_full(read)
}

// Maps every error to running out of memory.
fn found_or_full(read: Result<bool, Error>) -> Result<bool, AllocError>
    ensures { MatchResult result (λ found. read ≡ Ok found) (λ _. IsErr read) }
{
    match read {
        Ok(found) => Ok(found),
        Err(_) => Err(AllocError),
    }
}

/// The number of the record after the header and `rows` rows, if one more row is within the limit.
/// Takes no memory.
pub fn next_line(rows: usize) -> Result<u32, HouseholdFault>
    ensures { MatchResult result (λ line. (rows < ROWS) × (line ≡ line_behind rows)) (λ fault. (ROWS ≤ rows) × (fault ≡ TooManyRows)) }
{
    if rows >= ROWS as usize {
        return Err(HouseholdFault::TooManyRows);
    }
    Ok(rows as u32 + 2)
}

/// The field of a record at this position, from 0; empty past the last. Takes no memory.
pub fn field_at(row: &ByteRecord, place: usize) -> &[u8]
    ensures { result.now ≡ get_or (fields_of row.now) place [] }
{
    match row.get(place) {
        Some(field) => field,
        None => &[],
    }
}
