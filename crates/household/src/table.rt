ghost use Rattle.std.specs.Prelude.{◌≡◌, ◌+◌, ◌≤◌, [], drop, length, nat_le, IfOk, Ok, Err};
ghost use Rattle.std.specs.List.{AllByRecursion, list_all};
ghost use Rattle.std.specs.Vec.{vec_capacity};
ghost use Rattle.csv.specs.Records.{fields_of};
ghost use Rattle.m_places.specs.Refusals.{Says};
ghost use Rattle.household.specs.InTurn.{in_turn};
ghost use Rattle.household.specs.Household.{AreInputs, AreOfTypes};
ghost use Rattle.m_fixed.specs.Text.{text_value, amount_read};
ghost use Rattle.household.specs.Table.{parsed_amount, cells_read, column_of, is_label, is_table_header, labelled, pairs_read, table_of};
ghost use Rattle.household.specs.declared.fault.HouseholdFault.TheVariants.{Memory};

use crate::marks::mark;
use crate::parts::read_rows;
use crate::records::{field_at, next_record, records_of};
use crate::{Codes, Household, HouseholdFault, Pair};
use csv::ByteRecord;
use m_fixed::read_amount;
use m_places::{Name, Seq};
use std::alloc::{AllocError, Global};
use std::thread::Threads;

/// A row of a table: a household with a label.
#[derive(Drop)]
pub struct Row {
    pub label: Name,
    pub household: Household,
}

/// Parses a table: comma-separated records, the first of which is `name` and codes of inputs; each
/// other is a label and, for each code, an amount or an empty cell, as `dupont,2500.5,`.
///
/// Several workers read the rows, each those of a part.
pub fn read_table<R: Threads + Sync>(
    rt: &R,
    alloc: Global,
    bytes: &[u8],
    codes: &Codes,
) -> Result<Seq<Row>, HouseholdFault>
    ensures outcome { Says Memory result (λ rows. rows) (table_of codes.now bytes.now) }
    ensures inputs { IfOk result (λ rows. AllByRecursion (λ row. AreInputs (length codes.now) row.household.pairs) rows) }
    ensures amounts { IfOk result (λ rows. AllByRecursion (λ row. AreOfTypes codes.now row.household.pairs) rows) }
{
    let mut records = records_of(alloc, bytes);
    let mut row = ByteRecord::new(alloc);
    if !next_record(&mut records, &mut row)? {
        return Err(HouseholdFault::BadHeader);
    }
    if !is_header(&row) {
        return Err(HouseholdFault::BadHeader);
    }
    let columns = read_columns(alloc, &row, codes)?;
    let rows = read_rows(rt, alloc, bytes, &mut records, &columns, codes)?;
    Ok(Seq::from_vec(rows))
}

// Whether a record is the header of a table.
fn is_header(row: &ByteRecord) -> bool
    ensures { result ≡ is_table_header (fields_of row.now) }
{
    field_at(row, 0) == b"name".as_slice()
}

// The inputs of a table's columns, from its header.
fn read_columns(alloc: Global, row: &ByteRecord, codes: &Codes) -> Result<Vec<u32>, HouseholdFault>
    ensures { Says Memory result (λ columns. columns.items) (in_turn (column_of codes.now) [] (drop 1 (fields_of row.now))) }
{
    let mut marked = vec![in alloc; false; codes.len() as usize]?;
    let mut columns = Vec::new(alloc);
    for place in 1..row.len() {
        let Some(input) = codes.find(field_at(row, place)) else {
            return Err(HouseholdFault::UnknownCode(1));
        };
        if !mark(&mut marked, input) {
            return Err(HouseholdFault::CodeTwice(1));
        }
        columns.push(input)?;
    }
    Ok(columns)
}

/// Parses the record with this number as a row.
pub(crate) fn read_row(
    alloc: Global,
    row: &ByteRecord,
    line: u32,
    columns: &[u32],
    codes: &Codes,
) -> Result<Row, HouseholdFault>
    ensures { Says Memory result (λ read. read) (labelled codes.now line columns.now (fields_of row.now)) }
{
    let label = field_at(row, 0);
    if row.len() != columns.len() + 1 || !is_label(label) {
        return Err(HouseholdFault::BadRow(line));
    }
    let pairs = read_pairs(alloc, row, line, columns, codes)?;
    Ok(Row {
        label: Name::new(alloc, label)?,
        household: Household {
            pairs: Seq::from_vec(pairs),
        },
    })
}

/// Whether a text can be a row's label: it isn't empty, and no byte is below 32. Takes no memory.
pub fn is_label(text: &[u8]) -> bool
    ensures { result ≡ is_label text.now }
{
    !text.is_empty() && is_printable(text)
}

// Whether no byte of a text is below 32.
fn is_printable(text: &[u8]) -> bool
    ensures { result ≡ list_all (nat_le 32) text.now }
{
    text.iter().all(|byte| *byte >= 32)
}

// The pairs of a record's cells, each amount of its input's type.
fn read_pairs(
    alloc: Global,
    row: &ByteRecord,
    line: u32,
    columns: &[u32],
    codes: &Codes,
) -> Result<Vec<Pair>, HouseholdFault>
    requires { length (fields_of row.now) ≡ length columns.now + 1 }
    ensures { Says Memory result (λ pairs. pairs.items) (pairs_read codes.now line columns.now (drop 1 (fields_of row.now))) }
{
    let pairs = read_cells(alloc, row, line, columns)?;
    if !codes.all_fit(&pairs) {
        return Err(HouseholdFault::NotOfType(line));
    }
    Ok(pairs)
}

// The pairs of a record's cells, of any types.
fn read_cells(
    alloc: Global,
    row: &ByteRecord,
    line: u32,
    columns: &[u32],
) -> Result<Vec<Pair>, HouseholdFault>
    requires { length (fields_of row.now) ≡ length columns.now + 1 }
    ensures { Says Memory result (λ pairs. pairs.items) (cells_read line [] columns.now (drop 1 (fields_of row.now))) }
{
    let mut pairs = room_for(alloc, row)?;
    for column in 0..columns.len() {
        let cell = field_at(row, column + 1);
        if !cell.is_empty() {
            pairs.push(read_cell(cell, columns[column], line)?)?;
        }
    }
    Ok(pairs)
}

/// The pair of a non-empty cell in the column of this input, in the record with this number. Its
/// only fault is a bad amount; the type is checked by `Codes::fits`. Takes no memory.
pub fn read_cell(cell: &[u8], input: u32, line: u32) -> Result<Pair, HouseholdFault>
    ensures { result ≡ parsed_amount line input (amount_read (text_value cell.now)) }
{
    match read_amount(cell) {
        Ok(amount) => Ok(Pair::new(input, amount)),
        Err(_) => Err(HouseholdFault::BadAmount(line)),
    }
}

// An empty list with capacity for the pairs of a record's cells, so that a row takes only the
// memory that it needs. Its only error is running out of memory.
fn room_for(alloc: Global, row: &ByteRecord) -> Result<Vec<Pair>, AllocError>
    ensures none { IfOk result (λ pairs. pairs.items ≡ []) }
    ensures room { IfOk result (λ pairs. vec_capacity pairs ≤ length (fields_of row.now)) }
{
    Vec::with_capacity(alloc, count_filled(row))
}

// The number of cells of a record that aren't empty.
fn count_filled(row: &ByteRecord) -> usize
    ensures { result ≤ length (fields_of row.now) }
{
    let mut count: usize = 0;
    for place in 1..row.len() {
        if !field_at(row, place).is_empty() {
            count += 1;
        }
    }
    count
}
