//! Parses files of ranges: comma-separated records, the first of which is
//! `code,given,least,greatest`; each other is the code of an input, `yes`, `no` or `maybe`, and two
//! amounts or two empty fields.
ghost use Rattle.std.specs.Prelude.{◌≡◌, ◌<◌, [], length, IfOk, Ok, Err};
ghost use Rattle.std.specs.List.{AllByRecursion};
ghost use Rattle.csv.specs.Records.{fields_of};
ghost use Rattle.m_places.specs.Refusals.{Says};
ghost use Rattle.m_names.specs.Names.{AreDistinct};
ghost use Rattle.observables.specs.Inputs.{codes_of};
ghost use Rattle.household.specs.InTurn.{in_turn};
ghost use Rattle.household.specs.Household.{input_type};
ghost use Rattle.household.specs.Reader.{left_of};
ghost use Rattle.household.specs.declared.fault.HouseholdFault.TheVariants.{Memory};
ghost use Rattle.input_ranges.specs.Ranges.{parsed_fact, range_of, parsed_range, ranges_of, parsed_ranges, row_of, typed_range};

use crate::bounds::{is_typed, parsed_possible};
use crate::given::{Given, given_of};
use crate::header::is_header;
use crate::ranges::{InputRange, facts_within};
use csv::ByteRecord;
use definedness::Fact;
use household::records::{Records, field_at, next_line, next_record, records_of};
use household::{Codes, HouseholdFault, mark};
use m_places::Seq;
use observables::{Coded, InputType};
use std::alloc::Global;

/// Reads the possible values of each of `count` inputs, in their order. An input without a record
/// may be undefined or have any amount of its type. The first faulty record is reported.
pub fn read_ranges(
    alloc: Global,
    bytes: &[u8],
    inputs: &[Coded],
    count: u32,
) -> Result<Seq<Fact>, HouseholdFault>
    requires distinct { AreDistinct (codes_of inputs.now) }
    requires count { count ≡ length inputs.now }
    ensures { Says Memory result (λ facts. facts) (ranges_of inputs.now bytes.now) }
{
    let ranges = named_ranges(alloc, bytes, inputs, count)?;
    Ok(facts_within(alloc, inputs, ranges.as_slice())?)
}

// The ranges of a file's records.
fn named_ranges(
    alloc: Global,
    bytes: &[u8],
    inputs: &[Coded],
    count: u32,
) -> Result<Seq<InputRange>, HouseholdFault>
    requires distinct { AreDistinct (codes_of inputs.now) }
    requires count { count ≡ length inputs.now }
    ensures outcome { Says Memory result (λ ranges. ranges) (parsed_ranges inputs.now bytes.now) }
    ensures known { IfOk result (λ ranges. AllByRecursion (λ range. range.input < length inputs.now) ranges) }
{
    let codes = Codes::new(alloc, inputs, count)?;
    let mut records = records_of(alloc, bytes);
    let mut row = ByteRecord::new(alloc);
    if !next_record(&mut records, &mut row)? {
        return Err(HouseholdFault::BadHeader);
    }
    if !is_header(&row) {
        return Err(HouseholdFault::BadHeader);
    }
    let ranges = read_rows(alloc, &mut records, &mut row, inputs, &codes)?;
    Ok(Seq::from_vec(ranges))
}

// The ranges of the remaining rows.
fn read_rows(
    alloc: Global,
    records: &mut Records<'_>,
    row: &mut ByteRecord,
    inputs: &[Coded],
    codes: &Codes,
) -> Result<Vec<InputRange>, HouseholdFault>
    requires { codes.now ≡ inputs.now }
    ensures { Says Memory result (λ ranges. ranges.items) (in_turn (row_of inputs.now) [] (left_of records.old)) }
{
    let mut marked = vec![in alloc; false; codes.len() as usize]?;
    let mut ranges = Vec::new(alloc);
    while next_record(records, row)? {
        let line = next_line(ranges.len())?;
        let range = read_range(row, line, inputs, codes)?;
        if !mark(&mut marked, range.input) {
            return Err(HouseholdFault::CodeTwice(line));
        }
        ranges.push(range)?;
    }
    Ok(ranges)
}

// Parses the record with this number.
fn read_range(
    row: &ByteRecord,
    line: u32,
    inputs: &[Coded],
    codes: &Codes,
) -> Result<InputRange, HouseholdFault>
    requires { codes.now ≡ inputs.now }
    ensures { result ≡ range_of inputs.now line (fields_of row.now) }
{
    if row.len() != 4 {
        return Err(HouseholdFault::BadRow(line));
    }
    let Some(input) = codes.find(field_at(row, 0)) else {
        return Err(HouseholdFault::UnknownCode(line));
    };
    let kind = kind_of(inputs, input);
    match parsed_fact(kind, field_at(row, 1), field_at(row, 2), field_at(row, 3)) {
        Some(fact) => typed_range(line, kind, input, fact),
        None => Err(HouseholdFault::BadAmount(line)),
    }
}

// The type of the input with this number.
fn kind_of(inputs: &[Coded], input: u32) -> InputType
    ensures { result ≡ input_type inputs.now input }
{
    match inputs.get(input as usize) {
        Some(coded) => coded.kind,
        None => InputType::Any,
    }
}

// The possible values of an input of a type by the three fields after its code; `None` if the
// fields are invalid.
fn parsed_fact(kind: InputType, word: &[u8], least: &[u8], greatest: &[u8]) -> Option<Fact>
    ensures { result ≡ parsed_fact kind word.now least.now greatest.now }
{
    match given_of(word) {
        Some(given) => parsed_possible(kind, given, least, greatest),
        None => None,
    }
}

// The range of an input, if its bounds are of its type.
fn typed_range(
    line: u32,
    kind: InputType,
    input: u32,
    fact: Fact,
) -> Result<InputRange, HouseholdFault>
    ensures { result ≡ typed_range line kind input fact }
{
    if is_typed(kind, fact) {
        Ok(InputRange { input, fact })
    } else {
        Err(HouseholdFault::NotOfType(line))
    }
}
