ghost use Rattle.std.specs.Prelude.{◌≡◌, ◌<◌, [], length, IfOk, Ok, Err};
ghost use Rattle.csv.specs.Records.{fields_of};
ghost use Rattle.m_places.specs.Refusals.{Says};
ghost use Rattle.household.specs.InTurn.{in_turn};
ghost use Rattle.household.specs.Household.{AreInputs, AreOfTypes, fitting_pair, household_of, is_header, pair_of, row_of};
ghost use Rattle.household.specs.Reader.{left_of};
ghost use Rattle.household.specs.declared.fault.HouseholdFault.TheVariants.{Memory};

use crate::marks::mark;
use crate::records::{Records, field_at, next_line, next_record, records_of};
use crate::{Codes, HouseholdFault, Pair};
use csv::ByteRecord;
use m_fixed::{Amount, read_amount};
use m_places::Seq;
use std::alloc::Global;

/// The amounts of a household.
#[derive(Drop)]
pub struct Household {
    /// The inputs and their amounts, in the order of the file. No input occurs twice.
    pub pairs: Seq<Pair>,
}

/// Parses a household: comma-separated records, the first of which is `code,amount`; each other is
/// the code of an input and an amount, as `1AJ,2500.5`.
pub fn read_household(
    alloc: Global,
    bytes: &[u8],
    codes: &Codes,
) -> Result<Household, HouseholdFault>
    ensures outcome { Says Memory result (λ household. household.pairs) (household_of codes.now bytes.now) }
    ensures inputs { IfOk result (λ household. AreInputs (length codes.now) household.pairs) }
    ensures amounts { IfOk result (λ household. AreOfTypes codes.now household.pairs) }
{
    let mut records = records_of(alloc, bytes);
    let mut row = ByteRecord::new(alloc);
    if !next_record(&mut records, &mut row)? {
        return Err(HouseholdFault::BadHeader);
    }
    if !is_header(&row) {
        return Err(HouseholdFault::BadHeader);
    }
    let pairs = read_rows(alloc, &mut records, &mut row, codes)?;
    Ok(Household {
        pairs: Seq::from_vec(pairs),
    })
}

// Whether a record is the header of a household.
fn is_header(row: &ByteRecord) -> bool
    ensures { result ≡ is_header (fields_of row.now) }
{
    row.len() == 2
        && field_at(row, 0) == b"code".as_slice()
        && field_at(row, 1) == b"amount".as_slice()
}

// The pairs of the remaining rows.
fn read_rows(
    alloc: Global,
    records: &mut Records<'_>,
    row: &mut ByteRecord,
    codes: &Codes,
) -> Result<Vec<Pair>, HouseholdFault>
    ensures { Says Memory result (λ pairs. pairs.items) (in_turn (row_of codes.now) [] (left_of records.old)) }
{
    let mut marked = vec![in alloc; false; codes.len() as usize]?;
    let mut pairs = Vec::new(alloc);
    while next_record(records, row)? {
        let line = next_line(pairs.len())?;
        let pair = read_pair(row, line, codes)?;
        if !mark(&mut marked, pair.input()) {
            return Err(HouseholdFault::CodeTwice(line));
        }
        pairs.push(pair)?;
    }
    Ok(pairs)
}

// Parses the record with this number.
fn read_pair(row: &ByteRecord, line: u32, codes: &Codes) -> Result<Pair, HouseholdFault>
    ensures pair { result ≡ pair_of codes.now line (fields_of row.now) }
    ensures known { IfOk result (λ pair. pair.0 < length codes.now) }
{
    if row.len() != 2 {
        return Err(HouseholdFault::BadRow(line));
    }
    let Some(input) = codes.find(field_at(row, 0)) else {
        return Err(HouseholdFault::UnknownCode(line));
    };
    match read_amount(field_at(row, 1)) {
        Ok(amount) => fitting_pair(input, amount, line, codes),
        Err(_) => Err(HouseholdFault::BadAmount(line)),
    }
}

// The pair of an input and an amount, if the amount is of the input's type.
fn fitting_pair(
    input: u32,
    amount: Amount,
    line: u32,
    codes: &Codes,
) -> Result<Pair, HouseholdFault>
    ensures { result ≡ fitting_pair codes.now line (input, amount) }
{
    if codes.fits(input, amount) {
        Ok(Pair::new(input, amount))
    } else {
        Err(HouseholdFault::NotOfType(line))
    }
}
