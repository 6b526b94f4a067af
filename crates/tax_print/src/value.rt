ghost use Rattle.std.specs.Prelude.{◌∷◌, [], ◌<◌, length, codes};
ghost use Rattle.m_ports.specs.Giving.{Gives};
ghost use Rattle.m_text.specs.Pieces.{joined};
ghost use Rattle.m_fixed.specs.Text.{printed};
ghost use Rattle.m_text.specs.Pieces.{new_line};
ghost use Rattle.tax_print.specs.Lines.{output_line, output_lines, value_line};

use crate::note::print_note;
use m_fixed::{Amount, Value, write_amount};
use m_ports::{Failed, Sink, give_pieces};
use observables::{Face, FaceLabel, FaceOutput};

/// Writes the lines of the output with this number and this value: for a named one `IRN = 1500.5`,
/// `IRN undefined` or `IRN over`, and for a note those of its verification, if it is reported. On a
/// failure a prefix of the lines was appended. Takes no memory.
pub fn print_values<K: Sink>(face: &Face, k: u32, v: Value, out: &mut K) -> Result<(), Failed>
    requires { k < length face.now.outputs }
    ensures { Gives K.written K.faults out.old out.new result (output_line face.now k v) }
{
    print_output(
        face.labels.as_slice(),
        &face.outputs.as_slice()[k as usize],
        v,
        out,
    )
}

/// Writes the lines of an output with this value.
pub(crate) fn print_output<K: Sink>(
    labels: &[FaceLabel],
    output: &FaceOutput,
    value: Value,
    out: &mut K,
) -> Result<(), Failed>
    ensures { Gives K.written K.faults out.old out.new result (output_lines labels.now value output.now) }
{
    match output {
        FaceOutput::Named(name) => print_value(name.bytes(), value, out),
        FaceOutput::Noted(number) => print_note(labels, *number, value, out),
    }
}

/// Writes the line of a named value.
pub(crate) fn print_value<K: Sink>(name: &[u8], value: Value, out: &mut K) -> Result<(), Failed>
    ensures { Gives K.written K.faults out.old out.new result (value_line name.now value) }
{
    match value {
        Value::Undef => give_pieces(out, &[name, b" undefined\n"]),
        Value::Num(amount) => print_amount(name, amount, out),
        Value::Over => give_pieces(out, &[name, b" over\n"]),
    }
}

fn print_amount<K: Sink>(name: &[u8], amount: Amount, out: &mut K) -> Result<(), Failed>
    ensures { Gives K.written K.faults out.old out.new result (joined (name.now ∷ codes " = " ∷ printed amount ∷ new_line ∷ [])) }
{
    let mut room = [0; 32];
    let length = write_amount(amount, &mut room);
    give_amount(name, &room[..length], out)
}

fn give_amount<'a, K: Sink>(name: &'a [u8], amount: &'a [u8], out: &mut K) -> Result<(), Failed>
    ensures { Gives K.written K.faults out.old out.new result (joined (name.now ∷ codes " = " ∷ amount.now ∷ new_line ∷ [])) }
{
    give_pieces(out, &[name, b" = ", amount, b"\n"])
}
