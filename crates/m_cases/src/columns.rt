//! The columns of a table of cases: amounts of inputs, or expectations of outputs.
ghost use Rattle.std.specs.Prelude.{◌≡◌, ◌<◌, ◌++◌, ◌∷◌, [], drop, length, not, IfOk, Ok, Err, List};
ghost use Rattle.std.specs.List.{list_any};
ghost use Rattle.csv.specs.Records.{fields_of};
ghost use Rattle.m_places.specs.Refusals.{Outcome};
ghost use Rattle.m_names.specs.Names.{index_of};
ghost use Rattle.observables.specs.Inputs.{codes_of};
ghost use Rattle.observables.specs.Outputs.{names_of};
ghost use Rattle.m_cases.specs.declared.columns.Column.{Column};
ghost use Rattle.household.specs.InTurn.{in_turn};
ghost use Rattle.m_cases.specs.Columns.{column_of, parsed_field, input_declared, is_same_column};
ghost use Rattle.m_cases.specs.inner.Outputs.{AreSeen, IsBelow};
ghost use Rattle.m_cases.specs.declared.fault.CasesFault.TheVariants.{Memory};

use crate::CasesFault;
use crate::outputs::Outputs;
use csv::ByteRecord;
use household::records::field_at;
use household::{Codes, mark};
use std::alloc::{AllocError, Global};

/// The content of a column.
#[derive(Clone, Copy, Debug, PartialEq, Eq)]
pub enum Column {
    /// Amounts of the input with this number.
    Input(u32),
    /// Expectations of the output with this number.
    Output(u32),
}

/// Which inputs and outputs already have a column.
#[derive(Drop)]
pub struct Seen {
    pub inputs: Vec<bool>,
    pub outputs: Vec<bool>,
}

/// The columns of a table of cases, from its header, or the fault of the first faulty field.
pub(crate) fn read_columns(
    alloc: Global,
    row: &ByteRecord,
    codes: &Codes,
    outputs: &Outputs<'_>,
) -> Result<Vec<Column>, CasesFault>
    ensures { Outcome Memory result
        (λ columns. in_turn (column_of codes.now (names_of outputs.now.outputs.now)) [] (drop 1 (fields_of row.now)) ≡ Ok columns.items)
        (λ fault. in_turn (column_of codes.now (names_of outputs.now.outputs.now)) [] (drop 1 (fields_of row.now)) ≡ Err fault) }
{
    let mut seen = none_seen(alloc, codes.len() as usize, outputs.outputs.len())?;
    fill_columns(alloc, row, codes, outputs, &mut seen)
}

// No input or output has a column.
fn none_seen(alloc: Global, inputs: usize, outputs: usize) -> Result<Seen, AllocError>
    ensures inputs { IfOk result (λ seen. length seen.inputs.items ≡ inputs) }
    ensures outputs { IfOk result (λ seen. length seen.outputs.items ≡ outputs) }
    ensures none { IfOk result (λ seen. AreSeen seen []) }
{
    let inputs = vec![in alloc; false; inputs]?;
    let outputs = vec![in alloc; false; outputs]?;
    Ok(Seen { inputs, outputs })
}

fn fill_columns(
    alloc: Global,
    row: &ByteRecord,
    codes: &Codes,
    outputs: &Outputs<'_>,
    seen: &mut Seen,
) -> Result<Vec<Column>, CasesFault>
    requires inputs { length seen.old.inputs.items ≡ length codes.now }
    requires outputs { length seen.old.outputs.items ≡ length outputs.now.outputs.now }
    requires none { AreSeen seen.old [] }
    ensures { Outcome Memory result
        (λ columns. in_turn (column_of codes.now (names_of outputs.now.outputs.now)) [] (drop 1 (fields_of row.now)) ≡ Ok columns.items)
        (λ fault. in_turn (column_of codes.now (names_of outputs.now.outputs.now)) [] (drop 1 (fields_of row.now)) ≡ Err fault) }
{
    let mut columns = Vec::new(alloc);
    for place in 1..row.len() {
        let column = parsed_field(field_at(row, place), codes, outputs)?;
        if !see(seen, column) {
            return Err(CasesFault::CodeTwice(1));
        }
        columns.push(column)?;
    }
    Ok(columns)
}

// Parses a field of the header alone.
fn parsed_field(field: &[u8], codes: &Codes, outputs: &Outputs<'_>) -> Result<Column, CasesFault>
    ensures { result ≡ parsed_field codes.now (names_of outputs.now.outputs.now) field.now }
{
    if field.is_empty() || field[0] != b'=' {
        return input_declared(field, codes);
    }
    match outputs.find(&field[1..]) {
        Some(output) => Ok(Column::Output(output)),
        None => Err(CasesFault::UnknownOutput(1)),
    }
}

fn input_declared(code: &[u8], codes: &Codes) -> Result<Column, CasesFault>
    ensures { result ≡ input_declared (index_of code.now (codes_of codes.now)) }
{
    match codes.find(code) {
        Some(input) => Ok(Column::Input(input)),
        None => Err(CasesFault::UnknownCode(1)),
    }
}

// Marks a column's input or output, and returns whether it was unmarked before.
fn see(seen: &mut Seen, column: Column) -> bool
    requires { IsBelow (length seen.old.inputs.items) (length seen.old.outputs.items) column }
    ensures fresh { (columns : List Column) → AreSeen seen.old columns → result ≡ not (list_any (is_same_column column) columns) }
    ensures seen { (columns : List Column) → AreSeen seen.old columns → AreSeen seen.new (columns ++ column ∷ []) }
    ensures inputs { length seen.new.inputs.items ≡ length seen.old.inputs.items }
    ensures outputs { length seen.new.outputs.items ≡ length seen.old.outputs.items }
{
    match column {
        Column::Input(input) => mark(&mut seen.inputs, input),
        Column::Output(output) => mark(&mut seen.outputs, output),
    }
}
