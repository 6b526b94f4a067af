//! The first record, and the fields of a household whose run stops.
ghost use Rattle.std.specs.Prelude.{◌≡◌, [], if◌then◌else◌};
ghost use Rattle.m_ports.specs.Giving.{Gives};
ghost use Rattle.observables.specs.Outputs.{names_of};
ghost use Rattle.survey_commands.specs.Records.{header};
ghost use Rattle.survey_commands.specs.inner.Outputs.{output_field, output_fields};

use m_places::Name;
use m_ports::{Failed, FixedText, Sink, give_all, give_pieces};
use observables::FaceOutput;

/// The size in bytes of the text for the first record.
pub(crate) const HEADER_ROOM: usize = 65_536;

/// Writes the first record: by one call from a text, or if it doesn't fit there, piece by piece.
pub(crate) fn give_header<K: Sink>(
    outputs: &[FaceOutput],
    held: &mut FixedText,
    out: &mut K,
) -> Result<(), Failed>
    ensures { Gives K.written K.faults out.old out.new result (header (names_of outputs.now)) }
{
    held.clear();
    match print_header(outputs, held) {
        Ok(()) => give_all(out, held.text()),
        Err(_) => print_header(outputs, out),
    }
}

// Writes it piece by piece.
fn print_header<K: Sink>(outputs: &[FaceOutput], out: &mut K) -> Result<(), Failed>
    ensures { Gives K.written K.faults out.old out.new result (header (names_of outputs.now)) }
{
    give_pieces(out, &[b"name,stop,notes"])?;
    give_fields(outputs, true, out)?;
    give_pieces(out, &[b"\n"])
}

/// Writes a field for each output with a name, after a comma: its name, or nothing.
pub(crate) fn give_fields<K: Sink>(
    outputs: &[FaceOutput],
    filled: bool,
    out: &mut K,
) -> Result<(), Failed>
    ensures { Gives K.written K.faults out.old out.new result (output_fields filled outputs.now) }
{
    for output in outputs {
        give_output(output, filled, out)?;
    }
    Ok(())
}

fn give_output<K: Sink>(output: &FaceOutput, filled: bool, out: &mut K) -> Result<(), Failed>
    ensures { Gives K.written K.faults out.old out.new result (output_field filled output.now) }
{
    match output {
        FaceOutput::Named(name) => give_pieces(out, &[b",", field_of(name, filled)]),
        FaceOutput::Noted(_) => give_pieces(out, &[]),
    }
}

fn field_of(name: &Name, filled: bool) -> &[u8]
    ensures { result.now ≡ if filled then name.now else [] }
{
    if filled { name.bytes() } else { b"" }
}
