//! The record of a household.
ghost use Rattle.std.specs.Prelude.{◌∷◌, [], ◌++◌, ◌<◌, ◌≤◌, false, codes, length};
ghost use Rattle.m_ports.specs.Giving.{Gives};
ghost use Rattle.m_text.specs.Pieces.{joined, new_line};
ghost use Rattle.observables.specs.Answers.{label_number};
ghost use Rattle.tax_print.specs.Lines.{AnswerIsWithin};
ghost use Rattle.survey_commands.specs.Csv.{field_text};
ghost use Rattle.survey_commands.specs.inner.Outputs.{answer_fields, output_fields, output_notes, output_values, stop_field};

use crate::columns::give_fields;
use crate::csv::give_field;
use crate::notes::give_notes;
use crate::stops::give_stop;
use crate::values::give_values;
use household::Row;
use m_batch::RowPrinter;
use m_fixed::Value;
use m_ports::{Failed, Sink, give_pieces};
use observables::{Answer, Face, FaceLabel, FaceOutput, Stop};

/// Prints the record of each row, and counts nothing.
#[derive(Drop)]
pub(crate) struct Records<'a> {
    pub face: &'a Face,
}

impl<'a> RowPrinter for Records<'a> {
    ghost use Rattle.tax_print.specs.Lines.{AnswerIsWithin};
    ghost use Rattle.code_answers.specs.inner.Printers.{nothing_counted};
    ghost use Rattle.survey_commands.specs.inner.Printers.{record_by};

    ghost may_print = { λ p at row answer. AnswerIsWithin p.face.now answer };

    ghost text = { λ p. record_by p.face.now };

    ghost count = { λ p. nothing_counted };

    fn print<K: Sink>(
        &self,
        _place: usize,
        row: &Row,
        answer: &Answer,
        out: &mut K,
    ) -> Result<u64, Failed> {
        print_record(row.label.bytes(), self.face, answer, out)?;
        Ok(0)
    }
}

// Prints a label and an answer as a record.
fn print_record<K: Sink>(
    label: &[u8],
    face: &Face,
    answer: &Answer,
    out: &mut K,
) -> Result<(), Failed>
    requires { AnswerIsWithin face.now answer.now }
    ensures { Gives K.written K.faults out.old out.new result (field_text label.now ++ answer_fields face.now answer.now) }
{
    give_field(label, out)?;
    print_answer(face, answer, out)
}

// Prints the fields after the label.
fn print_answer<K: Sink>(face: &Face, answer: &Answer, out: &mut K) -> Result<(), Failed>
    requires { AnswerIsWithin face.now answer.now }
    ensures { Gives K.written K.faults out.old out.new result (answer_fields face.now answer.now) }
{
    let labels = face.labels.as_slice();
    let outputs = face.outputs.as_slice();
    match answer {
        Answer::Values(values) => print_values(labels, outputs, values.as_slice(), out),
        Answer::Stopped(stop) => print_stop(labels, outputs, *stop, out),
    }
}

fn print_values<K: Sink>(
    labels: &[FaceLabel],
    outputs: &[FaceOutput],
    values: &[Value],
    out: &mut K,
) -> Result<(), Failed>
    requires { length values.now ≤ length outputs.now }
    ensures { Gives K.written K.faults out.old out.new result
        (joined (codes ",," ∷ output_notes false labels.now outputs.now values.now ∷ output_values outputs.now values.now ∷ new_line ∷ [])) }
{
    give_pieces(out, &[b",,"])?;
    give_notes(labels, outputs, values, out)?;
    give_values(outputs, values, out)?;
    give_pieces(out, &[b"\n"])
}

fn print_stop<K: Sink>(
    labels: &[FaceLabel],
    outputs: &[FaceOutput],
    stop: Stop,
    out: &mut K,
) -> Result<(), Failed>
    requires { label_number stop < length labels.now }
    ensures { Gives K.written K.faults out.old out.new result
        (joined (codes "," ∷ stop_field labels.now stop ∷ codes "," ∷ output_fields false outputs.now ∷ new_line ∷ [])) }
{
    give_pieces(out, &[b","])?;
    give_stop(labels, stop, out)?;
    give_pieces(out, &[b","])?;
    give_fields(outputs, false, out)?;
    give_pieces(out, &[b"\n"])
}
