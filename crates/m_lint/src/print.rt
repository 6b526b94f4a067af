//! Prints findings.

ghost use Rattle.std.specs.Prelude.{◌≡◌, Some, length, option_copied};
ghost use Rattle.m_ports.specs.Giving.{Gives};
ghost use Rattle.m_symbols.specs.Declarations.{owners_from, inputs_from};
ghost use Rattle.m_symbols.specs.Cells.{printed_cell, cell_text};
ghost use Rattle.micro_m.specs.Bases.{IsValidBase};
ghost use Rattle.m_lint.specs.Findings.{AreWithinCounts, IsWithinCounts, label_of_check};
ghost use Rattle.m_lint.specs.Lines.{cell_line, check_line, stops_line, input_line, own_code, finding_line, findings_text};

use crate::Finding;
use itoa::Buffer;
use m_ast::Role;
use m_places::Label;
use m_ports::{Failed, Sink, give_pieces};
use m_symbols::{Symbols, Variable};
use micro_m::Base;

/// Writes findings, one line each with its line feed: `never defined IRN` with the cell's printed
/// name, `never stops 2000 A20` with the check's label, or `unused input 1AJ` with the input's
/// code. On a failure a prefix of the text was appended. Takes no memory.
pub fn print_findings<K: Sink>(
    symbols: &Symbols,
    base: &Base,
    findings: &[Finding],
    out: &mut K,
) -> Result<(), Failed>
    requires valid { IsValidBase base.now }
    requires within { AreWithinCounts (length (owners_from 0 symbols.now.variables)) (length base.now.checks)
        (length (inputs_from 0 symbols.now.variables)) findings.now }
    ensures { Gives K.written K.faults out.old out.new result (findings_text symbols.now base.now findings.now) }
{
    for finding in findings {
        print_finding(symbols, base, *finding, out)?;
    }
    Ok(())
}

fn print_finding<K: Sink>(
    symbols: &Symbols,
    base: &Base,
    finding: Finding,
    out: &mut K,
) -> Result<(), Failed>
    requires { IsWithinCounts (length (owners_from 0 symbols.now.variables)) (length base.now.checks) (length (inputs_from 0 symbols.now.variables)) finding }
    ensures { Gives K.written K.faults out.old out.new result (finding_line symbols.now base.now finding) }
{
    match finding {
        Finding::NeverDefined(cell) => {
            print_cell(symbols.variable(symbols.owner(cell)), cell, out)
        }
        Finding::NeverStops(k) => print_check(base, k, out),
        Finding::Unused(n) => print_input(symbols.variable(symbols.input(n)), out),
    }
}

// The line of a cell of this variable.
fn print_cell<K: Sink>(variable: &Variable, cell: u32, out: &mut K) -> Result<(), Failed>
    ensures { Gives K.written K.faults out.old out.new result (cell_line (printed_cell cell variable.now)) }
{
    let name = variable.item.name.bytes();
    match &variable.item.role {
        Role::Computed(Some(_)) => print_index(name, cell.saturating_sub(variable.first_cell), out),
        Role::Computed(None) => give_pieces(out, &[b"never defined ", name, b"\n"]),
        Role::Input(_) => give_pieces(out, &[b"never defined ", name, b"\n"]),
        Role::Constant(_) => give_pieces(out, &[b"never defined ", name, b"\n"]),
    }
}

// The line of a table's cell.
fn print_index<K: Sink>(name: &[u8], k: u32, out: &mut K) -> Result<(), Failed>
    ensures { Gives K.written K.faults out.old out.new result (cell_line (cell_text (Some 0) name.now k)) }
{
    let mut buffer = Buffer::new();
    let digits = buffer.format(k).as_bytes();
    give_pieces(out, &[b"never defined ", name, b"[", digits, b"]\n"])
}

/// Writes the line of the base's check with this number, such as `never stops 2000 A20`, with its
/// line feed. On a failure a prefix of the line was appended. Takes no memory.
pub fn print_check<K: Sink>(base: &Base, k: u32, out: &mut K) -> Result<(), Failed>
    ensures { Gives K.written K.faults out.old out.new result (stops_line base.now k) }
{
    match label_of_check(base, k) {
        Some(label) => print_label(label, out),
        None => give_pieces(out, &[]),
    }
}

// The label of the check with this number.
fn label_of_check(base: &Base, k: u32) -> Option<&Label>
    ensures { option_copied result ≡ label_of_check base.now k }
{
    let check = base.checks.as_slice().get(k as usize)?;
    base.labels.as_slice().get(check.1 as usize)
}

// The line of a check with this label.
fn print_label<K: Sink>(label: &Label, out: &mut K) -> Result<(), Failed>
    ensures { Gives K.written K.faults out.old out.new result (check_line label.now) }
{
    let verif = label.verif.bytes();
    let error = label.error.bytes();
    give_pieces(out, &[b"never stops ", verif, b" ", error, b"\n"])
}

// The line of an input that is this variable.
fn print_input<K: Sink>(variable: &Variable, out: &mut K) -> Result<(), Failed>
    ensures { Gives K.written K.faults out.old out.new result (input_line (own_code variable.now)) }
{
    match &variable.item.role {
        Role::Input(code) => print_code(code.bytes(), out),
        Role::Computed(_) => print_code(b"", out),
        Role::Constant(_) => print_code(b"", out),
    }
}

fn print_code<K: Sink>(code: &[u8], out: &mut K) -> Result<(), Failed>
    ensures { Gives K.written K.faults out.old out.new result (input_line code.now) }
{
    give_pieces(out, &[b"unused input ", code, b"\n"])
}
