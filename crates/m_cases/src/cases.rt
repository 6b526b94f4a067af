//! Reads tables of cases: rows with expectations.
ghost use Rattle.std.specs.Prelude.{◌≡◌, ◌<◌, ◌≤◌, ◌+◌, ◌^◌, ◌++◌, ◌∷◌, [], drop, length, IfOk, OnOk, Ok, Err};
ghost use Rattle.std.specs.List.{AllByRecursion};
ghost use Rattle.csv.specs.Records.{fields_of};
ghost use Rattle.m_places.specs.Refusals.{Outcome};
ghost use Rattle.m_places.specs.declared.limits.TheConstants.{ROWS};
ghost use Rattle.m_fixed.specs.Text.{amount_read, text_value};
ghost use Rattle.observables.specs.Outputs.{names_of, notes_of};
ghost use Rattle.household.specs.Household.{AreInputs, AreOfTypes};
ghost use Rattle.household.specs.InTurn.{if_read, in_turn};
ghost use Rattle.household.specs.Reader.{left_of};
ghost use Rattle.household.specs.Table.{cells_read, is_table_header, pairs_read};
ghost use Rattle.m_cases.specs.Cases.{AreExpected, amount_expected, case_of, parsed_case, cases_made, expected_read, parsed_expectation, face_cases};
ghost use Rattle.m_cases.specs.Cases.{numbered, numbered_cases, of_household};
ghost use Rattle.m_cases.specs.Columns.{column_inputs, column_of, input_cells};
ghost use Rattle.m_cases.specs.inner.Cells.{amounts_behind, expected_behind};
ghost use Rattle.m_cases.specs.declared.expected.Expected.TheVariants.{Is, Stop};
ghost use Rattle.m_cases.specs.declared.fault.CasesFault.TheVariants.{Memory};

use crate::columns::{Column, read_columns};
use crate::outputs::Outputs;
use crate::{CasesFault, Expected};
use csv::ByteRecord;
use household::records::{Records, field_at, next_line, next_record, records_of};
use household::{Codes, Household, Pair, Row, is_label, read_cell};
use m_fixed::{Value, read_amount};
use m_places::{Name, Seq};
use observables::{Face, FaceOutput};
use std::alloc::{AllocError, Global};

/// A table of cases: its rows in order, and for each row its expectations in the order of the
/// fields. Outputs are numbered as in the face, from 0, notes before names.
#[derive(Drop)]
pub struct Cases {
    pub rows: Seq<Row>,
    pub expected: Seq<Seq<(u32, Expected)>>,
}

/// A row and its expectations. Here outputs are numbered among those with names, from 0.
#[derive(Drop)]
pub struct Case {
    pub row: Row,
    pub expected: Seq<(u32, Expected)>,
}

/// Parses a table of cases: comma-separated records, the first of which is `name`, then codes of
/// inputs and, after `=`, names of outputs; each other is a label and for each column an amount, an
/// expectation, or nothing, as `dupont,2500.5,1500.5`.
pub fn read_cases(
    alloc: Global,
    bytes: &[u8],
    codes: &Codes,
    face: &Face,
) -> Result<Cases, CasesFault>
    requires { length face.now.outputs < 2 ^ 32 }
    ensures outcome { Outcome Memory result
        (λ cases. face_cases codes.now face.now bytes.now ≡ Ok cases)
        (λ fault. face_cases codes.now face.now bytes.now ≡ Err fault) }
    ensures inputs { IfOk result (λ cases. AllByRecursion (λ row. AreInputs (length codes.now) row.household.pairs) cases.rows) }
    ensures amounts { IfOk result (λ cases. AllByRecursion (λ row. AreOfTypes codes.now row.household.pairs) cases.rows) }
    ensures many { IfOk result (λ cases. length cases.expected ≡ length cases.rows) }
    ensures few { IfOk result (λ cases. length cases.rows ≤ ROWS) }
    ensures expected { IfOk result (λ cases. AllByRecursion (AreExpected (length face.now.outputs)) cases.expected) }
{
    let mut records = records_of(alloc, bytes);
    let mut row = ByteRecord::new(alloc);
    if !next_record(&mut records, &mut row)? {
        return Err(CasesFault::BadHeader);
    }
    if !is_header(&row) {
        return Err(CasesFault::BadHeader);
    }
    let columns = columns_of(alloc, &row, codes, face)?;
    let cases = read_rows(alloc, &mut records, &mut row, &columns, codes)?;
    let notes = count_notes(face.outputs.as_slice());
    Ok(apart(alloc, cases, notes)?)
}

// The number of notes, which come before the names.
fn count_notes(outputs: &[FaceOutput]) -> u32
    requires { length outputs.now < 2 ^ 32 }
    ensures { result ≡ length (notes_of outputs.now) }
{
    let mut count = 0u32;
    for output in outputs {
        if let FaceOutput::Noted(_) = output {
            count += 1;
        }
    }
    count
}

// Whether a record is the header of a table.
fn is_header(row: &ByteRecord) -> bool
    ensures { result ≡ is_table_header (fields_of row.now) }
{
    field_at(row, 0) == b"name".as_slice()
}

// The columns of a table of cases, from its header.
fn columns_of(
    alloc: Global,
    row: &ByteRecord,
    codes: &Codes,
    face: &Face,
) -> Result<Vec<Column>, CasesFault>
    requires { length face.now.outputs < 2 ^ 32 }
    ensures { Outcome Memory result
        (λ columns. in_turn (column_of codes.now (names_of face.now.outputs)) [] (drop 1 (fields_of row.now)) ≡ Ok columns.items)
        (λ fault. in_turn (column_of codes.now (names_of face.now.outputs)) [] (drop 1 (fields_of row.now)) ≡ Err fault) }
{
    let outputs = Outputs::new(alloc, face.outputs.as_slice())?;
    read_columns(alloc, row, codes, &outputs)
}

// The remaining cases.
fn read_rows(
    alloc: Global,
    records: &mut Records<'_>,
    row: &mut ByteRecord,
    columns: &[Column],
    codes: &Codes,
) -> Result<Vec<Case>, CasesFault>
    ensures { Outcome Memory result
        (λ cases. in_turn (case_of codes.now columns.now) [] (left_of records.old) ≡ Ok cases.items)
        (λ fault. in_turn (case_of codes.now columns.now) [] (left_of records.old) ≡ Err fault) }
{
    let mut cases = Vec::new(alloc);
    while next_record(records, row)? {
        let line = next_line(cases.len())?;
        cases.push(read_case(alloc, row, line, columns, codes)?)?;
    }
    Ok(cases)
}

// Parses the record with this number.
fn read_case(
    alloc: Global,
    row: &ByteRecord,
    line: u32,
    columns: &[Column],
    codes: &Codes,
) -> Result<Case, CasesFault>
    ensures { Outcome Memory result
        (λ read. parsed_case codes.now line columns.now (fields_of row.now) ≡ Ok read)
        (λ fault. parsed_case codes.now line columns.now (fields_of row.now) ≡ Err fault) }
{
    let label = field_at(row, 0);
    if row.len() != columns.len() + 1 || !is_label(label) {
        return Err(CasesFault::BadRow(line));
    }
    let pairs = read_pairs(alloc, row, line, columns, codes)?;
    let expected = read_expected(alloc, row, line, columns)?;
    Ok(Case {
        row: Row {
            label: Name::new(alloc, label)?,
            household: Household { pairs },
        },
        expected,
    })
}

// The pairs of the cells in columns of inputs, each amount of its input's type.
fn read_pairs(
    alloc: Global,
    row: &ByteRecord,
    line: u32,
    columns: &[Column],
    codes: &Codes,
) -> Result<Seq<Pair>, CasesFault>
    requires { length (fields_of row.now) ≡ length columns.now + 1 }
    ensures { Outcome Memory result
        (λ pairs. pairs_read codes.now line (column_inputs columns.now) (input_cells columns.now (drop 1 (fields_of row.now))) ≡ Ok pairs)
        (λ fault. of_household (pairs_read codes.now line (column_inputs columns.now) (input_cells columns.now (drop 1 (fields_of row.now)))) ≡ Err fault) }
{
    let pairs = read_amounts(alloc, row, line, columns)?;
    if !codes.all_fit(&pairs) {
        return Err(CasesFault::NotOfType(line));
    }
    Ok(Seq::from_vec(pairs))
}

// The pairs of the cells in columns of inputs, of any types.
fn read_amounts(
    alloc: Global,
    row: &ByteRecord,
    line: u32,
    columns: &[Column],
) -> Result<Vec<Pair>, CasesFault>
    requires { length (fields_of row.now) ≡ length columns.now + 1 }
    ensures { Outcome Memory result
        (λ pairs. cells_read line [] (column_inputs columns.now) (input_cells columns.now (drop 1 (fields_of row.now))) ≡ Ok pairs.items)
        (λ fault. of_household (cells_read line [] (column_inputs columns.now) (input_cells columns.now (drop 1 (fields_of row.now)))) ≡ Err fault) }
{
    let mut pairs = Vec::new(alloc);
    for place in 0..columns.len() {
        add_amount(field_at(row, place + 1), columns[place], line, &mut pairs)?;
    }
    Ok(pairs)
}

// Adds the pair of a cell, if it isn't empty and its column is of an input.
fn add_amount(
    cell: &[u8],
    column: Column,
    line: u32,
    pairs: &mut Vec<Pair>,
) -> Result<(), CasesFault>
    ensures { Outcome Memory result
        (λ _. amounts_behind line pairs.old.items column cell.now ≡ Ok pairs.new.items)
        (λ fault. of_household (amounts_behind line pairs.old.items column cell.now) ≡ Err fault) }
{
    match column {
        Column::Input(input) => {
            if !cell.is_empty() {
                pairs.push(read_cell(cell, input, line)?)?;
            }
            Ok(())
        }
        Column::Output(_) => Ok(()),
    }
}

// The expectations of the cells in columns of outputs.
fn read_expected(
    alloc: Global,
    row: &ByteRecord,
    line: u32,
    columns: &[Column],
) -> Result<Seq<(u32, Expected)>, CasesFault>
    requires { length (fields_of row.now) ≡ length columns.now + 1 }
    ensures { Outcome Memory result
        (λ expected. expected_read line [] columns.now (drop 1 (fields_of row.now)) ≡ Ok expected)
        (λ fault. expected_read line [] columns.now (drop 1 (fields_of row.now)) ≡ Err fault) }
{
    let mut expected = Vec::new(alloc);
    for place in 0..columns.len() {
        add_expected(
            field_at(row, place + 1),
            columns[place],
            line,
            &mut expected,
        )?;
    }
    Ok(Seq::from_vec(expected))
}

// Adds the expectation of a cell, if it isn't empty and its column is of an output.
fn add_expected(
    cell: &[u8],
    column: Column,
    line: u32,
    expected: &mut Vec<(u32, Expected)>,
) -> Result<(), CasesFault>
    ensures { Outcome Memory result
        (λ _. expected_behind line expected.old.items column cell.now ≡ Ok expected.new.items)
        (λ fault. expected_behind line expected.old.items column cell.now ≡ Err fault) }
{
    match column {
        Column::Input(_) => Ok(()),
        Column::Output(output) => {
            if cell.is_empty() {
                return Ok(());
            }
            put_expected(cell, output, line, expected)
        }
    }
}

// Adds the expectation of a non-empty cell for the output with this number.
fn put_expected(
    cell: &[u8],
    output: u32,
    line: u32,
    expected: &mut Vec<(u32, Expected)>,
) -> Result<(), CasesFault>
    ensures { Outcome Memory result
        (λ _. if_read (λ one. Ok (expected.old.items ++ (output, one) ∷ [])) (parsed_expectation line cell.now) ≡ Ok expected.new.items)
        (λ fault. if_read (λ one. Ok (expected.old.items ++ (output, one) ∷ [])) (parsed_expectation line cell.now) ≡ Err fault) }
{
    match parsed_expectation(cell, line)? {
        Expected::Is(value) => Ok(push_value(output, value, expected)?),
        Expected::Stop => Ok(push_stop(output, expected)?),
    }
}

fn push_value(
    output: u32,
    value: Value,
    expected: &mut Vec<(u32, Expected)>,
) -> Result<(), AllocError>
    ensures { OnOk result (expected.new.items ≡ expected.old.items ++ (output, Is value) ∷ []) }
{
    expected.push((output, Expected::Is(value)))?;
    Ok(())
}

fn push_stop(output: u32, expected: &mut Vec<(u32, Expected)>) -> Result<(), AllocError>
    ensures { OnOk result (expected.new.items ≡ expected.old.items ++ (output, Stop) ∷ []) }
{
    expected.push((output, Expected::Stop))?;
    Ok(())
}

// Parses the expectation of a non-empty cell.
fn parsed_expectation(cell: &[u8], line: u32) -> Result<Expected, CasesFault>
    ensures { result ≡ parsed_expectation line cell.now }
{
    if cell == b"undefined".as_slice() {
        Ok(Expected::Is(Value::Undef))
    } else if cell == b"over".as_slice() {
        Ok(Expected::Is(Value::Over))
    } else if cell == b"stop".as_slice() {
        Ok(Expected::Stop)
    } else {
        amount_expected(cell, line)
    }
}

fn amount_expected(cell: &[u8], line: u32) -> Result<Expected, CasesFault>
    ensures { result ≡ amount_expected line (amount_read (text_value cell.now)) }
{
    match read_amount(cell) {
        Ok(amount) => Ok(Expected::Is(Value::Num(amount))),
        Err(_) => Err(CasesFault::BadExpected(line)),
    }
}

// The rows and the expectations of cases, with outputs numbered as in a face with `notes` notes.
// Its only error is running out of memory.
fn apart(alloc: Global, cases: Vec<Case>, notes: u32) -> Result<Cases, AllocError>
    requires { AllByRecursion (λ c. AllByRecursion (λ e. notes + e.0 < 2 ^ 32) c.expected) cases.items }
    ensures { IfOk result (λ made. made ≡ numbered_cases notes (cases_made cases.items)) }
{
    let mut rows = Vec::new(alloc);
    let mut expected = Vec::new(alloc);
    for case in cases {
        rows.push(case.row)?;
        expected.push(numbered(case.expected, notes))?;
    }
    Ok(Cases {
        rows: Seq::from_vec(rows),
        expected: Seq::from_vec(expected),
    })
}

// Renumbers expectations: from the number among outputs with names to that among all outputs, after
// `notes` notes.
fn numbered(expected: Seq<(u32, Expected)>, notes: u32) -> Seq<(u32, Expected)>
    requires { AllByRecursion (λ e. notes + e.0 < 2 ^ 32) expected }
    ensures { result ≡ numbered notes expected }
{
    let mut all = expected.into_vec();
    for i in 0..all.len() {
        let (output, one) = all[i];
        all[i] = (notes + output, one);
    }
    Seq::from_vec(all)
}
