//! Computes and prints rows with several workers: each prints its part into its own text, and the
//! texts are written in order, each with one call.
ghost use Rattle.std.specs.Prelude.{◌≡◌, ◌+◌, ◌*◌, ◌^◌, ◌<◌, ◌≤◌, IfOk, IfSome, length};
ghost use Rattle.std.specs.List.{AllByRecursion};
ghost use Rattle.workers.specs.Parts.{AreOfParts};
ghost use Rattle.m_batch.specs.Batch.{HasInputsBelow, answers_of};
ghost use Rattle.m_batch.specs.Printing.{MayPrintEach, WritesRows, counted_to_end, printed_count, printed_text};
ghost use Rattle.m_batch.specs.inner.Texts.{MayBeTextOf};

use crate::fault::PrintFault;
use crate::printer::RowPrinter;
use crate::texts::{PartText, print_part, text_of};
use household::Row;
use m_places::Gate;
use m_ports::{Sink, give_all};
use reg_machine::Code;
use std::alloc::Global;
use std::thread::Threads;
use workers::{map_parts, part_at, part_size};

// The greatest number of rows in a window, and the least (the last window may be shorter).
const WINDOW: usize = 8_192;

const FEWEST: usize = 256;

// The greatest number of values in the answers of a window, unless it has the least number of rows.
const VALUES: usize = 262_144;

// The total capacity of the texts that are held at once, in bytes.
const ROOM: usize = 33_554_432;

// The gate for a window whose first row has a given position.
#[derive(Drop)]
struct Later<'a, G> {
    gate: &'a G,
    from: u32,
}

impl<'a, G: Gate> Gate for Later<'a, G> {
    fn pass(&self, n: u32) {
        self.gate.pass(self.from.saturating_add(n));
    }
}

/// Computes the rows of a table and prints them in order; the text doesn't depend on the gate or
/// the number of threads. The worker of row k, from 0, first calls `gate.pass(k)`. There are as
/// many workers as processors, and at least two for two rows or more. Returns the sum of the
/// printer's counts, saturated at the greatest `u64`. If memory runs out or a write fails, a prefix
/// of the text was appended.
pub fn print_batch<R: Threads + Sync, G: Gate + Sync, P: RowPrinter + Sync, K: Sink>(
    rt: &R,
    alloc: Global,
    code: &Code,
    rows: &[Row],
    gate: &G,
    printer: &P,
    out: &mut K,
) -> Result<u64, PrintFault>
    requires inputs { AllByRecursion (HasInputsBelow code.now.counts.inputs) rows.now }
    requires may { MayPrintEach (P.may_print printer.now) 0 rows.now (answers_of code.now rows.now) }
    ensures text { WritesRows K.written K.faults out.old out.new result (printed_text (P.text printer.now) 0 rows.now (answers_of code.now rows.now)) }
    ensures count { IfOk result (λ n. n ≡ counted_to_end (printed_count (P.count printer.now) 0 rows.now (answers_of code.now rows.now))) }
{
    let size = window_size(code.outputs());
    let mut from = 0;
    let mut count: u64 = 0;
    while from < rows.len() {
        let end = window_end(from, rows.len(), size);
        let some = print_window(rt, alloc, code, from, &rows[from..end], gate, printer, out)?;
        count = count.saturating_add(some);
        from = end;
    }
    Ok(count)
}

// The number of rows in a window for code with this many outputs. It is limited so that the
// window's lines take about 10 MB or the capacity of the texts, with some hundred rows at least.
fn window_size(outputs: u32) -> usize
    ensures { 0 < result }
{
    match VALUES.checked_div(outputs as usize) {
        Some(rows) => rows.clamp(FEWEST, WINDOW),
        None => WINDOW,
    }
}

// The end of the window that begins at a position.
fn window_end(from: usize, count: usize, size: usize) -> usize
    requires begun { from < count }
    requires size { 0 < size }
    ensures some { from < result }
    ensures within { result ≤ count }
{
    if count - from <= size {
        count
    } else {
        from + size
    }
}

// Computes and prints a window whose first row has this position.
fn print_window<R: Threads + Sync, G: Gate + Sync, P: RowPrinter + Sync, K: Sink>(
    rt: &R,
    alloc: Global,
    code: &Code,
    from: usize,
    rows: &[Row],
    gate: &G,
    printer: &P,
    out: &mut K,
) -> Result<u64, PrintFault>
    requires inputs { AllByRecursion (HasInputsBelow code.now.counts.inputs) rows.now }
    requires may { MayPrintEach (P.may_print printer.now) from rows.now (answers_of code.now rows.now) }
    requires within { from + length rows.now < 2 ^ 64 }
    ensures text { WritesRows K.written K.faults out.old out.new result (printed_text (P.text printer.now) from rows.now (answers_of code.now rows.now)) }
    ensures count { IfOk result (λ n. n ≡ counted_to_end (printed_count (P.count printer.now) from rows.now (answers_of code.now rows.now))) }
{
    let size = part_size(rt, rows.len(), 1);
    let room = ROOM / rows.len().div_ceil(size).max(1);
    let later = Later {
        gate,
        from: u32::try_from(from).unwrap_or(u32::MAX),
    };
    let texts = map_parts(
        rt,
        alloc,
        &later,
        rows,
        size,
        &|start: usize, part: &[Row]| -> Option<PartText>
            requires { AllByRecursion (HasInputsBelow code.now.counts.inputs) part.now
                × MayPrintEach (P.may_print printer.now) (from + start) part.now (answers_of code.now part.now) × (from + start + length part.now < 2 ^ 64) }
            ensures { MayBeTextOf (P.text printer.entry.now) (P.count printer.entry.now) code.entry.now (from + start) part.entry.now result }
        { text_of(alloc, room, code, from + start, part, printer) },
    )?;
    give_parts(
        alloc,
        code,
        from,
        rows,
        size,
        texts.as_slice(),
        printer,
        out,
    )
}

// Writes the printed parts in order, where the first row has this position.
fn give_parts<P: RowPrinter, K: Sink>(
    alloc: Global,
    code: &Code,
    from: usize,
    rows: &[Row],
    size: usize,
    texts: &[Option<PartText>],
    printer: &P,
    out: &mut K,
) -> Result<u64, PrintFault>
    requires inputs { AllByRecursion (HasInputsBelow code.now.counts.inputs) rows.now }
    requires may { MayPrintEach (P.may_print printer.now) from rows.now (answers_of code.now rows.now) }
    requires within { from + length rows.now < 2 ^ 64 }
    requires size { 0 < size }
    requires texts { AreOfParts (λ at part made. MayBeTextOf (P.text printer.now) (P.count printer.now) code.now (from + at) part made) size 0 rows.now
        texts.now }
    ensures text { WritesRows K.written K.faults out.old out.new result (printed_text (P.text printer.now) from rows.now (answers_of code.now rows.now)) }
    ensures count { IfOk result (λ n. n ≡ counted_to_end (printed_count (P.count printer.now) from rows.now (answers_of code.now rows.now))) }
{
    let mut count: u64 = 0;
    for (n, text) in texts.iter().enumerate() {
        let part = part_at(rows, size, n);
        let some = give_part(alloc, code, from + n * size, part, text, printer, out)?;
        count = count.saturating_add(some);
    }
    Ok(count)
}

// Writes a printed part. A part without a text is printed directly to the output.
fn give_part<P: RowPrinter, K: Sink>(
    alloc: Global,
    code: &Code,
    place: usize,
    rows: &[Row],
    text: &Option<PartText>,
    printer: &P,
    out: &mut K,
) -> Result<u64, PrintFault>
    requires inputs { AllByRecursion (HasInputsBelow code.now.counts.inputs) rows.now }
    requires may { MayPrintEach (P.may_print printer.now) place rows.now (answers_of code.now rows.now) }
    requires within { place + length rows.now < 2 ^ 64 }
    requires text { MayBeTextOf (P.text printer.now) (P.count printer.now) code.now place rows.now text.now }
    ensures text { WritesRows K.written K.faults out.old out.new result (printed_text (P.text printer.now) place rows.now (answers_of code.now rows.now)) }
    ensures count { IfOk result (λ n. n ≡ counted_to_end (printed_count (P.count printer.now) place rows.now (answers_of code.now rows.now))) }
{
    match text {
        Some(made) => {
            give_all(out, made.text.text())?;
            Ok(made.count)
        }
        None => print_part(alloc, code, place, rows, printer, out),
    }
}
