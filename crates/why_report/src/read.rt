//! Parses reports.

ghost use Rattle.std.specs.Prelude.{◌≡◌, ◌+◌, ◌<◌, ◌≤◌, ◌++◌, ◌∷◌, [], All, IfOk, IfSome, OnOk, Ok, Err};
ghost use Rattle.std.specs.Prelude.{Some, None, length, take, drop, option_copied, option_to_list, is_some};
ghost use Rattle.m_places.specs.Refusals.{Outcome};
ghost use Rattle.m_places.specs.declared.limits.TheConstants.{CODE_FILE_BYTES};
ghost use Rattle.m_fixed.specs.Text.{text_value, amount_read};
ghost use Rattle.m_text.specs.Lines.{exact_lines_of};
ghost use Rattle.m_symbols.specs.Declarations.{owners_from};
ghost use Rattle.m_symbols.specs.Placed.{IsPlaced};
ghost use Rattle.why_report.specs.declared.fault.ReportFault.TheVariants.{Memory};
ghost use Rattle.why_report.specs.Reports.{behind_equals, amount_value, parsed_value, parsed_line, ends_report, parsed_report};

use crate::{ReportFault, ReportLine};
use m_fixed::{Value, read_amount};
use m_places::Seq;
use m_symbols::{Symbols, find_request};
use m_text::{first_exact_line, first_of};
use std::alloc::{AllocError, Global};

/// Parses a derivation. A line is a cell's printed name, one space, and `= ` with an amount,
/// `undefined` or `over`: `T[1] = 2500.50`. A line ends at a line feed, which may be missing after
/// the last; a last line `.` is skipped. An empty line, one with a carriage return, or a `.` that
/// isn't last is malformed.
///
/// The error is the number, from 1, of the first malformed line, or running out of memory.
pub fn read_report(
    alloc: Global,
    bytes: &[u8],
    symbols: &Symbols,
) -> Result<Seq<ReportLine>, ReportFault>
    requires placed { IsPlaced symbols.now }
    requires small { length bytes.now ≤ CODE_FILE_BYTES }
    ensures outcome { Outcome Memory result (λ lines. parsed_report symbols.now bytes.now ≡ Ok lines)
        (λ fault. parsed_report symbols.now bytes.now ≡ Err fault) }
    ensures known { IfOk result (All (λ line. line.cell < length (owners_from 0 symbols.now.variables))) }
{
    let mut lines = Vec::new(alloc);
    add_lines(bytes, symbols, &mut lines)?;
    Ok(Seq::from_vec(lines))
}

// Appends the parsed lines.
fn add_lines(
    bytes: &[u8],
    symbols: &Symbols,
    lines: &mut Vec<ReportLine>,
) -> Result<(), ReportFault>
    requires placed { IsPlaced symbols.now }
    requires small { length bytes.now ≤ CODE_FILE_BYTES }
    requires none { lines.old.items ≡ [] }
    ensures outcome { Outcome Memory result (λ _. parsed_report symbols.now bytes.now ≡ Ok lines.new.items)
        (λ fault. parsed_report symbols.now bytes.now ≡ Err fault) }
    ensures known { OnOk result (All (λ line. line.cell < length (owners_from 0 symbols.now.variables)) lines.new.items) }
{
    let mut number = 1u32;
    let mut left = bytes;
    while let Some((line, rest)) = first_exact_line(left) {
        if ends_report(line, rest) {
            return Ok(());
        }
        if !add_line(line, symbols, lines)? {
            return Err(ReportFault::BadLine(number));
        }
        number += 1;
        left = rest;
    }
    Ok(())
}

// Appends the parsed line, and returns whether the line is well-formed.
fn add_line(line: &[u8], symbols: &Symbols, lines: &mut Vec<ReportLine>) -> Result<bool, AllocError>
    requires placed { IsPlaced symbols.now }
    requires known { All (λ reported. reported.cell < length (owners_from 0 symbols.now.variables)) lines.old.items }
    ensures stated { IfOk result (λ stated. stated ≡ is_some (parsed_line symbols.now line.now)) }
    ensures added { OnOk result (lines.new.items ≡ lines.old.items ++ option_to_list (parsed_line symbols.now line.now)) }
    ensures known { OnOk result (All (λ reported. reported.cell < length (owners_from 0 symbols.now.variables)) lines.new.items) }
{
    match read_line(line, symbols) {
        Some(stated) => {
            add(stated.cell, stated.value, lines)?;
            Ok(true)
        }
        None => Ok(false),
    }
}

// Appends a line of a derivation.
fn add(cell: u32, value: Value, lines: &mut Vec<ReportLine>) -> Result<(), AllocError>
    ensures { OnOk result (lines.new.items ≡ lines.old.items ++ record { cell = cell; value = value } ∷ []) }
{
    lines.push(ReportLine { cell, value })?;
    Ok(())
}

// Whether a line is `.` and the last, where `rest` is the text after it.
fn ends_report(line: &[u8], rest: &[u8]) -> bool
    ensures { result ≡ ends_report line.now (exact_lines_of rest.now) }
{
    match first_exact_line(rest) {
        Some(_) => false,
        None => line == b".".as_slice(),
    }
}

// Parses a line.
fn read_line(line: &[u8], symbols: &Symbols) -> Option<ReportLine>
    requires { IsPlaced symbols.now }
    ensures stated { result ≡ parsed_line symbols.now line.now }
    ensures known { IfSome result (λ stated. stated.cell < length (owners_from 0 symbols.now.variables)) }
{
    let at = first_of(line, b' ');
    if at == line.len() {
        return None;
    }
    let value = read_value(&line[at + 1..])?;
    let cell = find_request(symbols, &line[..at])?;
    Some(ReportLine { cell, value })
}

// Parses the part after a cell's name and a space.
fn read_value(text: &[u8]) -> Option<Value>
    ensures { result ≡ parsed_value text.now }
{
    if text == b"undefined".as_slice() {
        return Some(Value::Undef);
    }
    if text == b"over".as_slice() {
        return Some(Value::Over);
    }
    match behind_equals(text) {
        Some(amount) => amount_value(amount),
        None => None,
    }
}

// Parses an amount.
fn amount_value(text: &[u8]) -> Option<Value>
    ensures { result ≡ amount_value (amount_read (text_value text.now)) }
{
    match read_amount(text) {
        Ok(amount) => Some(Value::Num(amount)),
        Err(_) => None,
    }
}

// The text after a leading `= `.
fn behind_equals(text: &[u8]) -> Option<&[u8]>
    ensures { option_copied result ≡ behind_equals text.now }
{
    match text {
        [] => None,
        [_] => None,
        [a, b, rest @ ..] => {
            if *a == b'=' && *b == b' ' {
                Some(rest)
            } else {
                None
            }
        }
    }
}
