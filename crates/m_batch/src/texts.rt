//! Prints the rows of one worker.
ghost use Rattle.std.specs.Prelude.{◌≡◌, ◌+◌, ◌^◌, ◌<◌, ◌≤◌, IfOk, IfSome, length};
ghost use Rattle.std.specs.List.{AllByRecursion};
ghost use Rattle.m_ports.specs.Giving.{Gives};
ghost use Rattle.m_batch.specs.Batch.{HasInputsBelow, answers_of};
ghost use Rattle.m_batch.specs.Printing.{MayPrintEach, WritesRows, counted_to_end, printed_count, printed_text};
ghost use Rattle.m_batch.specs.inner.Texts.{IsTextOf};

use crate::blocks::Blocks;
use crate::fault::PrintFault;
use crate::printer::RowPrinter;
use household::Row;
use m_ports::{Failed, FixedText, Sink};
use observables::Answer;
use reg_machine::Code;
use std::alloc::Global;

/// The text of a part and its count.
#[derive(Drop)]
pub(crate) struct PartText {
    pub text: FixedText,
    pub count: u64,
}

/// The text of rows, the first of which has this position; `None` if it doesn't fit or memory runs
/// out.
pub(crate) fn text_of<P: RowPrinter>(
    alloc: Global,
    room: usize,
    code: &Code,
    place: usize,
    rows: &[Row],
    printer: &P,
) -> Option<PartText>
    requires inputs { AllByRecursion (HasInputsBelow code.now.counts.inputs) rows.now }
    requires may { MayPrintEach (P.may_print printer.now) place rows.now (answers_of code.now rows.now) }
    requires within { place + length rows.now < 2 ^ 64 }
    ensures { IfSome result (IsTextOf (P.text printer.now) (P.count printer.now) place rows.now (answers_of code.now rows.now)) }
{
    let Ok(mut text) = FixedText::new(alloc, room) else {
        return None;
    };
    match print_part(alloc, code, place, rows, printer, &mut text) {
        Ok(count) => Some(PartText { text, count }),
        Err(_) => None,
    }
}

/// Computes rows, the first of which has this position, and prints them block by block. Returns the
/// sum of their counts, saturated at the greatest `u64`.
pub(crate) fn print_part<P: RowPrinter, K: Sink>(
    alloc: Global,
    code: &Code,
    place: usize,
    rows: &[Row],
    printer: &P,
    out: &mut K,
) -> Result<u64, PrintFault>
    requires inputs { AllByRecursion (HasInputsBelow code.now.counts.inputs) rows.now }
    requires may { MayPrintEach (P.may_print printer.now) place rows.now (answers_of code.now rows.now) }
    requires within { place + length rows.now < 2 ^ 64 }
    ensures text { WritesRows K.written K.faults out.old out.new result (printed_text (P.text printer.now) place rows.now (answers_of code.now rows.now)) }
    ensures count { IfOk result (λ n. n ≡ counted_to_end (printed_count (P.count printer.now) place rows.now (answers_of code.now rows.now))) }
{
    let mut blocks = Blocks::new(alloc, code, rows)?;
    let mut at = place;
    let mut count: u64 = 0;
    while blocks.left() > 0 {
        let part = blocks.next(alloc)?;
        let some = print_block(printer, at, part.rows, part.answers.as_slice(), out)?;
        count = count.saturating_add(some);
        at += part.rows.len();
    }
    Ok(count)
}

// Prints rows with their answers, where the first row has this position.
fn print_block<P: RowPrinter, K: Sink>(
    printer: &P,
    place: usize,
    rows: &[Row],
    answers: &[Answer],
    out: &mut K,
) -> Result<u64, Failed>
    requires many { length answers.now ≡ length rows.now }
    requires may { MayPrintEach (P.may_print printer.now) place rows.now answers.now }
    requires within { place + length rows.now < 2 ^ 64 }
    ensures text { Gives K.written K.faults out.old out.new result (printed_text (P.text printer.now) place rows.now answers.now) }
    ensures count { IfOk result (λ n. n ≡ counted_to_end (printed_count (P.count printer.now) place rows.now answers.now)) }
{
    let mut count: u64 = 0;
    for (k, row) in rows.iter().enumerate() {
        let some = printer.print(place + k, row, &answers[k], out)?;
        count = count.saturating_add(some);
    }
    Ok(count)
}
