//! Runs the rows of a table.
ghost use Rattle.std.specs.Prelude.{◌≡◌, IfOk};
ghost use Rattle.std.specs.List.{AllByRecursion};
ghost use Rattle.m_batch.specs.Batch.{HasInputsBelow, answers_of};

use crate::chunk::answers_of_chunk;
use household::Row;
use m_places::{Gate, Seq};
use observables::Answer;
use reg_machine::Code;
use std::alloc::{AllocError, Global};
use std::thread::Threads;
use workers::{join_parts, part_size};

/// The answer of code to each row of a table, in the order of the rows. Each answer is that of a
/// separate run, so a row that stops doesn't affect the others, and the answers don't depend on the
/// gate or the number of threads. The worker of row k, from 0, first calls `gate.pass(k)`. There
/// are as many workers as processors, and at least two for two rows or more. The only error is
/// running out of memory.
///
/// For code whose output is its input 0, rows with the amount 5 and with none have the answers 5
/// and undefined.
pub fn run_batch<R: Threads + Sync, G: Gate + Sync>(
    rt: &R,
    alloc: Global,
    code: &Code,
    rows: &[Row],
    gate: &G,
) -> Result<Seq<Answer>, AllocError>
    requires { AllByRecursion (HasInputsBelow code.now.counts.inputs) rows.now }
    ensures { IfOk result (λ answers. answers ≡ answers_of code.now rows.now) }
{
    let size = part_size(rt, rows.len(), 1);
    let answers = join_parts(
        rt,
        alloc,
        gate,
        rows,
        size,
        &|_start: usize, part: &[Row]| -> Result<Vec<Answer>, AllocError>
            requires { AllByRecursion (HasInputsBelow code.now.counts.inputs) part.now }
            ensures { IfOk result (λ answers. answers.items ≡ answers_of code.entry.now part.entry.now) }
        { answers_of_chunk(alloc, code, part) },
    )??;
    Ok(Seq::from_vec(answers))
}
