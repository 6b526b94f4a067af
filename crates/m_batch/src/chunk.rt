//! The answers of one worker.
ghost use Rattle.std.specs.Prelude.{◌≡◌, IfOk};
ghost use Rattle.std.specs.List.{AllByRecursion};
ghost use Rattle.m_batch.specs.Batch.{HasInputsBelow, answers_of};

use crate::blocks::Blocks;
use household::Row;
use observables::Answer;
use reg_machine::Code;
use std::alloc::{AllocError, Global};

/// The answers of rows, in order.
pub(crate) fn answers_of_chunk(
    alloc: Global,
    code: &Code,
    rows: &[Row],
) -> Result<Vec<Answer>, AllocError>
    requires { AllByRecursion (HasInputsBelow code.now.counts.inputs) rows.now }
    ensures { IfOk result (λ answers. answers.items ≡ answers_of code.now rows.now) }
{
    let mut blocks = Blocks::new(alloc, code, rows)?;
    let mut answers = Vec::with_capacity(alloc, rows.len())?;
    while blocks.left() > 0 {
        let mut part = blocks.next(alloc)?;
        answers.append(&mut part.answers)?;
    }
    Ok(answers)
}
