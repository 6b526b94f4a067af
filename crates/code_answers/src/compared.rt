//! Computes the rows of a table of cases, and compares them with their expectations.
ghost use Rattle.std.specs.Prelude.{◌≡◌, ◌≤◌, IfOk, length};
ghost use Rattle.std.specs.List.{AllByRecursion};
ghost use Rattle.m_places.specs.declared.limits.TheConstants.{ROWS};
ghost use Rattle.m_batch.specs.Batch.{HasInputsBelow};
ghost use Rattle.m_batch.specs.Printing.{WritesRows};
ghost use Rattle.m_cases.specs.Cases.{AreExpected};
ghost use Rattle.code_answers.specs.inner.Printers.{case_count, case_lines, case_text};

use crate::printers::Mismatches;
use code_file::Loaded;
use household::Row;
use m_batch::{PrintFault, print_batch};
use m_cases::{Expected, print_count};
use m_places::{Open, Seq};
use m_ports::Sink;
use std::alloc::Global;
use std::thread::Threads;

/// Computes, compares and prints rows, and then the number of rows and of mismatches. Gives the number of mismatches.
pub(crate) fn print_cases<R: Threads + Sync, K: Sink>(
    rt: &R,
    alloc: Global,
    loaded: &Loaded,
    rows: &[Row],
    expected: &[Seq<(u32, Expected)>],
    out: &mut K,
) -> Result<u64, PrintFault>
    requires inputs { AllByRecursion (HasInputsBelow loaded.now.code.counts.inputs) rows.now }
    requires many { length expected.now ≡ length rows.now }
    requires few { length rows.now ≤ ROWS }
    requires expected { AllByRecursion (AreExpected (length loaded.now.face.outputs)) expected.now }
    ensures text { WritesRows K.written K.faults out.old out.new result (case_text loaded.now rows.now expected.now) }
    ensures count { IfOk result (λ count. count ≡ case_count loaded.now rows.now expected.now) }
{
    let count = print_compared(rt, alloc, loaded, rows, expected, out)?;
    print_count(rows.len() as u32, count, out)?;
    Ok(count)
}

// The same without the last line.
fn print_compared<R: Threads + Sync, K: Sink>(
    rt: &R,
    alloc: Global,
    loaded: &Loaded,
    rows: &[Row],
    expected: &[Seq<(u32, Expected)>],
    out: &mut K,
) -> Result<u64, PrintFault>
    requires inputs { AllByRecursion (HasInputsBelow loaded.now.code.counts.inputs) rows.now }
    requires many { length expected.now ≡ length rows.now }
    requires few { length rows.now ≤ ROWS }
    requires expected { AllByRecursion (AreExpected (length loaded.now.face.outputs)) expected.now }
    ensures text { WritesRows K.written K.faults out.old out.new result (case_lines loaded.now rows.now expected.now) }
    ensures count { IfOk result (λ count. count ≡ case_count loaded.now rows.now expected.now) }
{
    let printer = Mismatches {
        face: &loaded.face,
        expected,
    };
    print_batch(rt, alloc, &loaded.code, rows, &Open, &printer, out)
}
