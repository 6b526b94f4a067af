//! The fields of the values.
ghost use Rattle.std.specs.Prelude.{◌∷◌, [], ◌≤◌, codes, length};
ghost use Rattle.m_fixed.specs.Text.{printed};
ghost use Rattle.m_ports.specs.Giving.{Gives};
ghost use Rattle.m_text.specs.Pieces.{joined};
ghost use Rattle.survey_commands.specs.Records.{value_field};
ghost use Rattle.survey_commands.specs.inner.Outputs.{output_value, output_values};

use m_fixed::{Amount, Value, write_amount};
use m_ports::{Failed, Sink, give_pieces};
use observables::FaceOutput;

/// Writes the values of outputs with names, each after a comma.
pub(crate) fn give_values<K: Sink>(
    outputs: &[FaceOutput],
    values: &[Value],
    out: &mut K,
) -> Result<(), Failed>
    requires { length values.now ≤ length outputs.now }
    ensures { Gives K.written K.faults out.old out.new result (output_values outputs.now values.now) }
{
    for (k, value) in values.iter().enumerate() {
        give_output(&outputs[k], *value, out)?;
    }
    Ok(())
}

fn give_output<K: Sink>(output: &FaceOutput, value: Value, out: &mut K) -> Result<(), Failed>
    ensures { Gives K.written K.faults out.old out.new result (output_value output.now value) }
{
    match output {
        FaceOutput::Named(_) => give_value(value, out),
        FaceOutput::Noted(_) => give_pieces(out, &[]),
    }
}

fn give_value<K: Sink>(value: Value, out: &mut K) -> Result<(), Failed>
    ensures { Gives K.written K.faults out.old out.new result (joined (codes "," ∷ value_field value ∷ [])) }
{
    match value {
        Value::Undef => give_pieces(out, &[b","]),
        Value::Num(amount) => give_amount(amount, out),
        Value::Over => give_pieces(out, &[b",over"]),
    }
}

fn give_amount<K: Sink>(amount: Amount, out: &mut K) -> Result<(), Failed>
    ensures { Gives K.written K.faults out.old out.new result (joined (codes "," ∷ printed amount ∷ [])) }
{
    let mut room = [0; 32];
    let length = write_amount(amount, &mut room);
    give_pieces(out, &[b",", &room[..length]])
}
