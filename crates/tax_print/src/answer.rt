ghost use Rattle.std.specs.Prelude.{◌≤◌, length};
ghost use Rattle.m_ports.specs.Giving.{Gives};
ghost use Rattle.tax_print.specs.Lines.{AnswerIsWithin, answer_lines, household_lines, outputs_lines};

use crate::stop::print_stop;
use crate::value::print_output;
use m_fixed::Value;
use m_places::Name;
use m_ports::{Failed, Sink, give_pieces};
use observables::{Answer, Face, FaceLabel, FaceOutput};

/// Writes the lines of an answer: those of each output, in order, or those of what stopped the run.
/// On a failure a prefix of the lines was appended. Takes no memory.
pub fn print_answer<K: Sink>(face: &Face, answer: &Answer, out: &mut K) -> Result<(), Failed>
    requires { AnswerIsWithin face.now answer.now }
    ensures { Gives K.written K.faults out.old out.new result (answer_lines face.now answer.now) }
{
    match answer {
        Answer::Values(values) => print_all(
            face.labels.as_slice(),
            face.outputs.as_slice(),
            values.as_slice(),
            out,
        ),
        Answer::Stopped(stop) => print_stop(face, *stop, out),
    }
}

/// Writes the lines of a household of a table: `household dupont`, and then those of its answer. On
/// a failure a prefix of the lines was appended. Takes no memory.
pub fn print_household<K: Sink>(
    label: &Name,
    face: &Face,
    answer: &Answer,
    out: &mut K,
) -> Result<(), Failed>
    requires { AnswerIsWithin face.now answer.now }
    ensures { Gives K.written K.faults out.old out.new result (household_lines label.now face.now answer.now) }
{
    give_pieces(out, &[b"household ", label.bytes(), b"\n"])?;
    print_answer(face, answer, out)
}

fn print_all<K: Sink>(
    labels: &[FaceLabel],
    outputs: &[FaceOutput],
    values: &[Value],
    out: &mut K,
) -> Result<(), Failed>
    requires { length values.now ≤ length outputs.now }
    ensures { Gives K.written K.faults out.old out.new result (outputs_lines labels.now outputs.now values.now) }
{
    for (k, value) in values.iter().enumerate() {
        print_output(labels, &outputs[k], *value, out)?;
    }
    Ok(())
}
