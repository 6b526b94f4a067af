//! The rows of one worker, block by block, on its own machine.
ghost use Rattle.std.specs.Prelude.{◌≡◌, ◌<◌, ◌≤◌, ◌++◌, ℕ, IfOk, OnOk, OnErr, length, slice_index_or};
ghost use Rattle.std.specs.List.{AllByRecursion};
ghost use Rattle.household.specs.declared.table.Row.{Row};
ghost use Rattle.m_batch.specs.inner.Rows.{answer_in};
ghost use Rattle.m_batch.specs.Batch.{HasInputsBelow, answers_of, row_answer};
ghost use Rattle.m_batch.specs.inner.Places.{ArePlaced, AreRows};

use crate::columns::Columns;
use crate::places::{Places, place_inputs};
use crate::room::BLOCK;
use crate::rows::put_rows;
use household::Row;
use m_fixed::Value;
use observables::Answer;
use reg_machine::Code;
use std::alloc::{AllocError, Global};
use std::marker::Model;

/// The rows that one worker has left, to be computed block by block on its own machine. Contracts
/// see the code and the rows that are left.
#[derive(Drop)]
pub struct Blocks<'a> {
    columns: Columns<'a>,
    places: Places,
    block: Vec<Vec<Value>>,
    rows: &'a [Row],
}

/// Some rows and their answers.
#[derive(Drop)]
pub struct Answered<'a> {
    pub rows: &'a [Row],
    pub answers: Vec<Answer>,
}

impl<'a> Model for Blocks<'a> {
    ghost use Rattle.m_batch.specs.Batch.{Left};
    ghost use Rattle.m_batch.specs.inner.Blocks.{IsReady};

    ghost Value = { Left };

    ghost view = { λ b. record { code = b.columns.code; rows = b.rows.now } };

    ghost invariant = { λ b. IsReady b.columns.code.counts.inputs b.places b.block.items b.rows.now };
}

impl<'a> Blocks<'a> {
    /// Prepares rows for this code. It goes over their amounts once, and takes memory for a machine
    /// and a block. Its only error is running out of memory.
    pub fn new(alloc: Global, code: &'a Code, rows: &'a [Row]) -> Result<Blocks<'a>, AllocError>
        requires { AllByRecursion (HasInputsBelow code.now.counts.inputs) rows.now }
        ensures { IfOk result (λ blocks. blocks ≡ record { code = code.now; rows = rows.now }) }
    {
        let places = place_inputs(alloc, code.inputs() as usize, rows)?;
        let block = new_rows(alloc, places.inputs.len())?;
        let columns = Columns::new(alloc, code)?;
        Ok(Blocks {
            columns,
            places,
            block,
            rows,
        })
    }

    /// The number of rows left. Takes no memory.
    pub fn left(&self) -> usize
        ensures { result ≡ length self.now.rows }
    {
        self.rows.len()
    }

    /// The next rows with their answers: at least one if any are left, and at most a block. Its
    /// only error is running out of memory, which leaves the rows as they were.
    pub fn next(&mut self, alloc: Global) -> Result<Answered<'a>, AllocError>
        ensures code { self.new.code ≡ self.old.code }
        ensures rows { IfOk result (λ part. self.old.rows ≡ part.rows.now ++ self.new.rows) }
        ensures answers { IfOk result (λ part. part.answers.items ≡ answers_of self.old.code part.rows.now) }
        ensures some { IfOk result (λ part. 0 < length self.old.rows → 0 < length part.rows.now) }
        ensures left { OnErr result (self.new.rows ≡ self.old.rows) }
    {
        let (first, rest) = self.rows.split_at(block_end(self.rows.len()));
        run_rows(&self.places, first, &mut self.columns, &mut self.block);
        let answers = answers_of_block(alloc, first, &self.columns)?;
        self.rows = rest;
        Ok(Answered {
            rows: first,
            answers,
        })
    }
}

// Lists of values for the rows of a block, with `width` values each.
fn new_rows(alloc: Global, width: usize) -> Result<Vec<Vec<Value>>, AllocError>
    ensures many { IfOk result (λ rows. length rows.items ≡ BLOCK) }
    ensures width { IfOk result (λ rows. AreRows width rows.items) }
{
    let mut rows = Vec::with_capacity(alloc, BLOCK)?;
    for _ in 0..BLOCK {
        rows.push(vec![in alloc; Value::Undef; width]?)?;
    }
    Ok(rows)
}

// The number of rows in the first block of `count` rows.
fn block_end(count: usize) -> usize
    ensures some { 0 < count → 0 < result }
    ensures within { result ≤ count }
    ensures width { result ≤ BLOCK }
{
    count.min(BLOCK)
}

// Computes a block.
fn run_rows<'a>(places: &Places, rows: &[Row], columns: &mut Columns<'a>, block: &mut [Vec<Value>])
    requires placed { ArePlaced columns.old.code.counts.inputs places.now rows.now }
    requires rows { length rows.now ≤ BLOCK }
    requires many { length block.old ≡ BLOCK }
    requires width { AreRows (length places.now.inputs.items) block.old }
    ensures many { length block.new ≡ BLOCK }
    ensures width { AreRows (length places.now.inputs.items) block.new }
    ensures code { columns.new.code ≡ columns.old.code }
    ensures answers { (r : ℕ) (d : Row) → r < length rows.now → answer_in columns.new r ≡ row_answer columns.old.code (slice_index_or rows.now r d) }
{
    put_rows(rows, places, block);
    columns.run_block(&places.of, &block[..rows.len()]);
}

// The answers of a computed block.
fn answers_of_block<'a>(
    alloc: Global,
    rows: &[Row],
    columns: &Columns<'a>,
) -> Result<Vec<Answer>, AllocError>
    requires rows { length rows.now ≤ BLOCK }
    requires answers { (r : ℕ) (d : Row) → r < length rows.now → answer_in columns.now r ≡ row_answer columns.now.code (slice_index_or rows.now r d) }
    ensures { IfOk result (λ answers. answers.items ≡ answers_of columns.now.code rows.now) }
{
    let mut answers = Vec::with_capacity(alloc, rows.len())?;
    for r in 0..rows.len() {
        let answer = columns.answer(alloc, r)?;
        answers.push(answer)?;
    }
    Ok(answers)
}
