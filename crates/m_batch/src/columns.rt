//! A machine that runs code on blocks of rows.
ghost use Rattle.std.specs.Prelude.{◌≡◌, ◌<◌, ◌≤◌, ℕ, length, IfOk};
ghost use Rattle.reg_machine.specs.Machine.{machine_run};
ghost use Rattle.m_batch.specs.inner.Rows.{answer_in, row_at, row_inputs, row_of};
ghost use Rattle.m_batch.specs.inner.Rooms.{AreWide};

use crate::check::clear_stops;
use crate::room::{BLOCK, Room};
use crate::step::run_rows;
use m_fixed::Value;
use m_places::Seq;
use observables::Answer;
use reg_machine::{Code, Parts};
use std::alloc::{AllocError, Global};
use std::marker::Model;

/// A machine for borrowed code. Contracts see the code, and the answers of the last block's rows by
/// their positions.
#[derive(Drop)]
pub struct Columns<'a> {
    code: &'a Code,
    parts: Parts<'a>,
    room: Room,
}

impl<'a> Model for Columns<'a> {
    ghost use Rattle.std.specs.Prelude.{length};
    ghost use Rattle.reg_machine.specs.inner.Packed.{AreParts};
    ghost use Rattle.m_batch.specs.inner.Rows.{Table};
    ghost use Rattle.m_batch.specs.inner.Rooms.{IsRoom};

    ghost Value = { Table };

    ghost view = { λ m. record { code = m.code.now; stops = m.room.stops.items; outputs = m.room.outputs.items } };

    ghost invariant = { λ m. AreParts m.code.now m.parts × IsRoom (length m.parts.used.now) m.code.now.counts.outputs m.room };
}

impl<'a> Columns<'a> {
    /// A machine for this code. It takes memory for a column for each of sixteen registers, of the
    /// slots that are written and of the outputs, whatever the length of the code and its slot
    /// count. Its only error is running out of memory.
    pub fn new(alloc: Global, code: &'a Code) -> Result<Columns<'a>, AllocError>
        ensures { IfOk result (λ columns. columns.code ≡ code.now) }
    {
        let parts = code.parts();
        let room = Room::new(alloc, parts.used.len(), code.outputs() as usize)?;
        Ok(Columns { code, parts, room })
    }

    /// Runs the code on the rows of a block. Input n of a row is its value at position
    /// `numbers[n]`, or undefined past the row's end. No state of earlier blocks has an effect. It
    /// takes no memory, and one step for each instruction and row.
    pub fn run_block(&mut self, numbers: &[usize], rows: &[Vec<Value>])
        requires inputs { length numbers.now ≡ self.old.code.counts.inputs }
        requires width { length rows.now ≤ BLOCK }
        ensures answers { (r : ℕ) → r < length rows.now → answer_in self.new r ≡ machine_run self.old.code (row_inputs numbers.now (row_at rows.now r)) }
        ensures code { self.new.code ≡ self.old.code }
    {
        clear_stops(rows.len(), &mut self.room.stops);
        run_rows(
            self.parts.packed,
            self.parts.pool,
            numbers,
            rows,
            &mut self.room,
        );
    }

    /// The answer of the row at this position. Its only error is running out of memory.
    pub fn answer(&self, alloc: Global, r: usize) -> Result<Answer, AllocError>
        requires { r < BLOCK }
        ensures { IfOk result (λ answer. answer ≡ answer_in self.now r) }
    {
        match self.room.stops[r] {
            Some(stop) => Ok(Answer::Stopped(stop)),
            None => {
                let outputs = outputs_of(alloc, self.room.outputs.as_slice(), r)?;
                Ok(Answer::Values(Seq::from_vec(outputs)))
            }
        }
    }
}

fn outputs_of(alloc: Global, columns: &[Vec<Value>], r: usize) -> Result<Vec<Value>, AllocError>
    requires wide { AreWide columns.now }
    requires within { r < BLOCK }
    ensures { IfOk result (λ outputs. outputs.items ≡ row_of r columns.now) }
{
    let mut outputs = Vec::with_capacity(alloc, columns.len())?;
    for k in 0..columns.len() {
        outputs.push(columns[k][r])?;
    }
    Ok(outputs)
}
