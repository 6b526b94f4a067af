//! Sessions: edits and shows.
ghost use Rattle.std.specs.Prelude.{◌≡◌, ◌+◌, ◌*◌, ◌<◌, IfOk, IfSome, length};
ghost use Rattle.std.specs.List.{AllByRecursion};
ghost use Rattle.m_ports.specs.Giving.{Gives};
ghost use Rattle.observables.specs.Inputs.{AreValuesOf};
ghost use Rattle.flat_code.specs.Faces.{IsFaceOf};
ghost use Rattle.flat_code.specs.Runs.{value_at};
ghost use Rattle.household.specs.Household.{AreOfTypes, inputs_of};
ghost use Rattle.household_session.specs.Sessions.{answered, begun, clear_of, edited, set_of, showing_of, shown};
ghost use Rattle.household_session.specs.Commands.{session_command};
ghost use Rattle.household_session.specs.Replies.{after_line, answer_reply, input_named, reply_of};
ghost use Rattle.household_session.specs.Seats.{line_cost, noted, show_cost, since_begun, since_line, since_shown};

use crate::EditFault;
use crate::command::{LineCommand, command_of_line};
use crate::outputs::print_sheet;
use crate::seat::put_all;
use flat_code::Tidy;
use household::{Codes, Household};
use m_fixed::{Value, read_amount};
use m_ports::{Failed, Sink, give_pieces};
use observables::Face;
use std::alloc::{AllocError, Global};
use std::marker::Model;
use std::sync::ledger::Ledger;
use value_sheet::{Sheet, Steps};

/// A household of a tidy program, whose amounts can be edited and whose answer can be shown.
/// Contracts see the program, its face, the current value of each input, and which inputs were set
/// since the last show.
#[derive(Drop)]
pub struct Session {
    sheet: Sheet,
    face: Face,
    codes: Codes,
}

impl Model for Session {
    ghost use Rattle.household_session.specs.Seats.{Seated, seated_by};
    ghost use Rattle.household_session.specs.inner.Ready.{IsReady};

    ghost Value = { Seated };

    ghost view = { λ s. seated_by s.sheet s.face };

    ghost invariant = { λ s. IsReady s.sheet.flat s.face s.codes };
}

impl Session {
    /// Starts a session of a tidy program with a household's amounts, which are of their inputs'
    /// types. `codes` are those of the face's inputs, and the program's arguments are numbered in
    /// 32 bits. Its only error is running out of memory, and no later call takes memory.
    pub fn start(
        alloc: Global,
        tidy: Tidy,
        face: Face,
        codes: Codes,
        household: &Household,
    ) -> Result<Session, AllocError>
        requires few { 3 * length tidy.nodes < 4_294_967_295 }
        requires face { IsFaceOf face tidy }
        requires codes { codes ≡ face.inputs }
        requires inputs { AllByRecursion (λ input. input < tidy.inputs) (inputs_of household.now.pairs) }
        requires amounts { AreOfTypes face.inputs household.now.pairs }
        ensures sitting { IfOk result (λ session. session.sitting ≡ begun tidy face household.now.pairs) }
        ensures since { IfOk result (λ session. session.since ≡ since_begun tidy household.now.pairs) }
        ensures values { IfOk result (λ session. AreValuesOf face.inputs session.sitting.values) }
    {
        let mut sheet = Sheet::new(alloc, tidy)?;
        put_all(&mut sheet, household);
        Ok(Session { sheet, face, codes })
    }

    /// Sets the input with this code to an amount spelled as `2500.5`. An unknown code is reported
    /// before a bad amount, and that before an amount that isn't of the input's type. A rejected
    /// edit changes nothing. It takes no memory.
    pub fn set(&mut self, code: &[u8], amount: &[u8]) -> Result<(), EditFault>
        ensures answer { result ≡ answered (set_of self.old.sitting.face.inputs code.now amount.now) }
        ensures sitting { self.new.sitting ≡ edited self.old.sitting (set_of self.old.sitting.face.inputs code.now amount.now) }
        ensures since { self.new.since ≡ noted self.old.since (set_of self.old.sitting.face.inputs code.now amount.now) }
    {
        let Some(input) = self.codes.find(code) else {
            return Err(EditFault::UnknownCode);
        };
        match read_amount(amount) {
            Ok(amount) => {
                if !self.codes.fits(input, amount) {
                    return Err(EditFault::NotOfType);
                }
                self.sheet.put(input, Value::Num(amount));
                Ok(())
            }
            Err(_) => Err(EditFault::BadAmount),
        }
    }

    /// Makes the input with this code undefined, if it isn't already. An unknown code is rejected.
    /// It takes no memory.
    pub fn clear(&mut self, code: &[u8]) -> Result<(), EditFault>
        ensures answer { result ≡ answered (clear_of self.old.sitting.face.inputs code.now) }
        ensures sitting { self.new.sitting ≡ edited self.old.sitting (clear_of self.old.sitting.face.inputs code.now) }
        ensures since { self.new.since ≡ noted self.old.since (clear_of self.old.sitting.face.inputs code.now) }
    {
        let Some(input) = self.codes.find(code) else {
            return Err(EditFault::UnknownCode);
        };
        self.sheet.put(input, Value::Undef);
        Ok(())
    }

    /// The number of inputs. It takes no memory.
    pub fn count(&self) -> u32
        ensures inputs { result ≡ length self.now.sitting.face.inputs }
        ensures flat { result ≡ self.now.sitting.flat.inputs }
    {
        self.codes.len()
    }

    /// The number of the input that a line sets or clears, even if the edit is rejected. It takes
    /// no memory.
    pub fn input_named(&self, line: &[u8]) -> Option<u32>
        ensures named { result ≡ input_named self.now.sitting.face.inputs (session_command line.now) }
        ensures known { IfSome result (λ input. input < self.now.sitting.flat.inputs) }
    {
        match command_of_line(line) {
            LineCommand::Nothing => None,
            LineCommand::Set(code, _) => self.codes.find(code),
            LineCommand::Clear(code) => self.codes.find(code),
            LineCommand::Show => None,
            LineCommand::TooLong => None,
            LineCommand::Bad => None,
        }
    }

    /// The current value of the input with this number. It takes no memory.
    pub fn input_value(&self, input: u32) -> Value
        requires { input < self.now.sitting.flat.inputs }
        ensures { result ≡ value_at self.now.sitting.values input }
    {
        self.sheet.input_value(input)
    }

    /// Writes the lines of the program's answer to the current amounts, then a line with a point.
    /// On a failure a prefix of them was appended. It takes one step for each node affected by the
    /// differences between the inputs at the last show and the current ones, and no other step; it
    /// changes no amount, and takes no memory.
    pub fn show<K: Sink, L: Ledger>(
        &mut self,
        out: &mut K,
        steps: &mut Steps<L>,
    ) -> Result<(), Failed>
        ensures text { Gives K.written K.faults out.old out.new result (shown (showing_of self.old.sitting) self.old.sitting.values) }
        ensures sitting { self.new.sitting ≡ self.old.sitting }
        ensures since { self.new.since ≡ since_shown self.old }
        ensures cost { steps.new ≡ steps.old + show_cost self.old }
    {
        self.sheet.settle(steps);
        print_sheet(&self.sheet, &self.face, out)?;
        give_pieces(out, &[b".\n"])
    }

    /// Executes a line, given without its line feed, and writes its reply: `set 1AJ 2500.5`, `clear
    /// 1AJ` or `show`. On a failure a prefix of the reply was appended; the session is that after
    /// the line in any case. Only a show takes steps. It takes no memory.
    pub fn command<K: Sink, L: Ledger>(
        &mut self,
        line: &[u8],
        out: &mut K,
        steps: &mut Steps<L>,
    ) -> Result<(), Failed>
        ensures text { Gives K.written K.faults out.old out.new result (reply_of self.old.sitting line.now) }
        ensures sitting { self.new.sitting ≡ after_line self.old.sitting line.now }
        ensures since { self.new.since ≡ since_line self.old line.now }
        ensures cost { steps.new ≡ steps.old + line_cost self.old line.now }
    {
        match command_of_line(line) {
            LineCommand::Nothing => Ok(()),
            LineCommand::Set(code, amount) => print_edit(self.set(code, amount), out),
            LineCommand::Clear(code) => print_edit(self.clear(code), out),
            LineCommand::Show => self.show(out, steps),
            LineCommand::TooLong => give_pieces(out, &[b"refused line too long\n"]),
            LineCommand::Bad => give_pieces(out, &[b"refused bad command\n"]),
        }
    }
}

// Writes the reply to an edit.
fn print_edit<K: Sink>(answer: Result<(), EditFault>, out: &mut K) -> Result<(), Failed>
    ensures { Gives K.written K.faults out.old out.new result (answer_reply answer) }
{
    match answer {
        Ok(()) => give_pieces(out, &[b"ok\n"]),
        Err(EditFault::UnknownCode) => give_pieces(out, &[b"refused unknown code\n"]),
        Err(EditFault::BadAmount) => give_pieces(out, &[b"refused bad amount\n"]),
        Err(EditFault::NotOfType) => give_pieces(out, &[b"refused not of its type\n"]),
    }
}
