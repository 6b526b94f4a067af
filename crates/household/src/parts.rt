//! Reads the rows of a table with several workers, each of which reads the records of some
//! consecutive cuts.
ghost use Rattle.std.specs.Prelude.{◌≡◌, ◌+◌, ◌*◌, ◌<◌, ◌≤◌, [], drop, length, MatchResult, Ok, Err};
ghost use Rattle.m_places.specs.Refusals.{Says};
ghost use Rattle.m_places.specs.declared.limits.TheConstants.{ROWS};
ghost use Rattle.household.specs.InTurn.{in_turn};
ghost use Rattle.household.specs.Household.{line_behind};
ghost use Rattle.household.specs.Records.{records_of};
ghost use Rattle.household.specs.Table.{table_row};
ghost use Rattle.household.specs.Reader.{left_of};
ghost use Rattle.household.specs.Lines.{HasNoQuote};
ghost use Rattle.household.specs.inner.Cuts.{IsCut, left_at};
ghost use Rattle.household.specs.inner.Parts.{AreCutsFrom, SaysPart};
ghost use Rattle.household.specs.declared.cuts.TheConstants.{BETWEEN};
ghost use Rattle.household.specs.declared.fault.HouseholdFault.TheVariants.{Memory, TooManyRows};

use crate::cuts::{BETWEEN, cuts_of, first_cut, has_quote};
use crate::records::{Records, next_line, next_record, records_of};
use crate::table::read_row;
use crate::{Codes, HouseholdFault, Row};
use csv::ByteRecord;
use m_places::Open;
use m_places::limits::ROWS;
use std::alloc::Global;
use std::thread::Threads;
use workers::{join_parts, part_size};

/// The rows after the first record of a table, or the fault of the first faulty one, however the
/// workers are scheduled. `records` has read the first record. It also reads the rest if the file
/// has a quotation mark; otherwise several workers do.
pub(crate) fn read_rows<R: Threads + Sync>(
    rt: &R,
    alloc: Global,
    bytes: &[u8],
    records: &mut Records<'_>,
    columns: &[u32],
    codes: &Codes,
) -> Result<Vec<Row>, HouseholdFault>
    requires { left_of records.old ≡ drop 1 (records_of bytes.now) }
    ensures { Says Memory result (λ rows. rows.items) (in_turn (table_row codes.now columns.now) [] (left_of records.old)) }
{
    if has_quote(bytes) {
        return read_left(alloc, records, columns, codes);
    }
    read_parts(rt, alloc, bytes, columns, codes)
}

// Reads the remaining rows in order.
fn read_left(
    alloc: Global,
    records: &mut Records<'_>,
    columns: &[u32],
    codes: &Codes,
) -> Result<Vec<Row>, HouseholdFault>
    ensures { Says Memory result (λ rows. rows.items) (in_turn (table_row codes.now columns.now) [] (left_of records.old)) }
{
    let mut row = ByteRecord::new(alloc);
    let mut rows = Vec::new(alloc);
    while next_record(records, &mut row)? {
        let line = next_line(rows.len())?;
        rows.push(read_row(alloc, &row, line, columns, codes)?)?;
    }
    Ok(rows)
}

// Reads the rows after the first record of a table without quotation marks, with several workers.
fn read_parts<R: Threads + Sync>(
    rt: &R,
    alloc: Global,
    bytes: &[u8],
    columns: &[u32],
    codes: &Codes,
) -> Result<Vec<Row>, HouseholdFault>
    requires { HasNoQuote bytes.now }
    ensures { Says Memory result (λ rows. rows.items) (in_turn (table_row codes.now columns.now) [] (drop 1 (records_of bytes.now))) }
{
    let first = first_cut(bytes);
    let cuts = cuts_of(alloc, bytes, first)?;
    let many = part_size(rt, cuts.len(), 1);
    join_parts(
        rt,
        alloc,
        &Open,
        cuts.as_slice(),
        many,
        &|start: usize, cuts: &[usize]| -> Result<Vec<Row>, HouseholdFault>
            requires { (0 < length cuts.now) × AreCutsFrom bytes.now (left_at bytes.now first) start cuts.now }
            ensures { SaysPart codes.entry.now columns.entry.now (drop (start * BETWEEN) (left_at bytes.entry.now first))
                (start * BETWEEN) (many * BETWEEN) result }
        {
            let _ = &first;
            read_part(alloc, bytes, cuts[0], start, many, columns, codes)
        },
    )?
}

// The rows of the records of some consecutive cuts, the first of which is number `start`, or the
// fault of the first faulty record.
fn read_part(
    alloc: Global,
    bytes: &[u8],
    first: usize,
    start: usize,
    many: usize,
    columns: &[u32],
    codes: &Codes,
) -> Result<Vec<Row>, HouseholdFault>
    requires { IsCut bytes.now first }
    ensures { SaysPart codes.now columns.now (left_at bytes.now first) (start * BETWEEN) (many * BETWEEN) result }
{
    let mut records = records_at(alloc, bytes, first);
    let rows = read_many(alloc, &mut records, start, many, columns, codes);
    drop(records);
    rows
}

// Reads the rows of at most `many` cuts, the first of which is number `start`, or reports the first
// fault.
fn read_many(
    alloc: Global,
    records: &mut Records<'_>,
    start: usize,
    many: usize,
    columns: &[u32],
    codes: &Codes,
) -> Result<Vec<Row>, HouseholdFault>
    ensures { SaysPart codes.now columns.now (left_of records.old) (start * BETWEEN) (many * BETWEEN) result }
{
    let mut row = ByteRecord::new(alloc);
    let mut rows = Vec::new(alloc);
    while rows.len() / BETWEEN < many && next_record(records, &mut row)? {
        let line = line_of(start, rows.len())?;
        rows.push(read_row(alloc, &row, line, columns, codes)?)?;
    }
    Ok(rows)
}

// A reader of the records after this cut.
fn records_at<'a>(alloc: Global, bytes: &'a [u8], cut: usize) -> Records<'a>
    requires { IsCut bytes.now cut }
    ensures { left_of result ≡ left_at bytes.now cut }
{
    records_of(alloc, &bytes[cut..])
}

// The number of the record after `rows` rows of a part whose first cut is number `start`.
fn line_of(start: usize, rows: usize) -> Result<u32, HouseholdFault>
    ensures { MatchResult result (λ line. (start * BETWEEN + rows < ROWS) × (line ≡ line_behind (start * BETWEEN + rows)))
        (λ fault. (ROWS ≤ start * BETWEEN + rows) × (fault ≡ TooManyRows)) }
{
    if start > ROWS as usize || rows > ROWS as usize {
        return Err(HouseholdFault::TooManyRows);
    }
    next_line(start * BETWEEN + rows)
}
