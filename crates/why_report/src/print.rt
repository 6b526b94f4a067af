//! Prints reports.

ghost use Rattle.std.specs.Prelude.{◌∷◌, ◌-◌, [], ◌<◌, All, Some, codes, length};
ghost use Rattle.m_ports.specs.Giving.{Gives};
ghost use Rattle.m_text.specs.Pieces.{joined, new_line};
ghost use Rattle.m_fixed.specs.Text.{printed};
ghost use Rattle.m_symbols.specs.Declarations.{owners_from};
ghost use Rattle.m_symbols.specs.Cells.{cell_name, cell_text};
ghost use Rattle.tax_print.specs.Lines.{value_line};
ghost use Rattle.why_report.specs.Reports.{report_text};

use crate::{CellNames, ReportLine};
use itoa::Buffer;
use m_fixed::{Amount, Value, write_amount};
use m_ports::{Failed, Sink, give_pieces};
use m_symbols::Span;

/// Writes the lines of a derivation, each with the cell's printed name, its value and a line feed:
/// `IRN = 2500.5`, `IRN undefined` or `IRN over`. Each cell is declared. On a failure a prefix of
/// the text was appended. Takes no memory.
pub fn print_report<K: Sink>(
    names: &CellNames,
    lines: &[ReportLine],
    out: &mut K,
) -> Result<(), Failed>
    requires { All (λ line. line.cell < length (owners_from 0 names.now.variables)) lines.now }
    ensures { Gives K.written K.faults out.old out.new result (report_text names.now lines.now) }
{
    for line in lines {
        print_line(names, *line, out)?;
    }
    Ok(())
}

// The line of a cell and its value.
fn print_line<K: Sink>(names: &CellNames, line: ReportLine, out: &mut K) -> Result<(), Failed>
    requires { line.cell < length (owners_from 0 names.now.variables) }
    ensures { Gives K.written K.faults out.old out.new result (value_line (cell_name names.now line.cell) line.value) }
{
    let number = names.owner(line.cell);
    print_cell(names.name(number), names.span(number), line.cell, out)?;
    print_value(line.value, out)
}

// The printed name of a cell of the variable with this name and these cells.
fn print_cell<K: Sink>(name: &[u8], span: Span, cell: u32, out: &mut K) -> Result<(), Failed>
    ensures { Gives K.written K.faults out.old out.new result (cell_text span.size name.now (cell - span.first_cell)) }
{
    match span.size {
        Some(_) => print_index(name, cell.saturating_sub(span.first_cell), out),
        None => give_pieces(out, &[name]),
    }
}

// The printed name of a table's cell.
fn print_index<K: Sink>(name: &[u8], k: u32, out: &mut K) -> Result<(), Failed>
    ensures { Gives K.written K.faults out.old out.new result (cell_text (Some 0) name.now k) }
{
    let mut buffer = Buffer::new();
    let digits = buffer.format(k).as_bytes();
    give_pieces(out, &[name, b"[", digits, b"]"])
}

// The rest of a line, after the cell's name.
fn print_value<K: Sink>(value: Value, out: &mut K) -> Result<(), Failed>
    ensures { Gives K.written K.faults out.old out.new result (value_line [] value) }
{
    match value {
        Value::Undef => give_pieces(out, &[b" undefined\n"]),
        Value::Num(amount) => print_amount(amount, out),
        Value::Over => give_pieces(out, &[b" over\n"]),
    }
}

fn print_amount<K: Sink>(amount: Amount, out: &mut K) -> Result<(), Failed>
    ensures { Gives K.written K.faults out.old out.new result (joined (codes " = " ∷ printed amount ∷ new_line ∷ [])) }
{
    let mut room = [0; 32];
    let length = write_amount(amount, &mut room);
    give_amount(&room[..length], out)
}

fn give_amount<K: Sink>(amount: &[u8], out: &mut K) -> Result<(), Failed>
    ensures { Gives K.written K.faults out.old out.new result (joined (codes " = " ∷ amount.now ∷ new_line ∷ [])) }
{
    give_pieces(out, &[b" = ", amount, b"\n"])
}
