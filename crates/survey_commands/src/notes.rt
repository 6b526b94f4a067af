//! The field of notes.
ghost use Rattle.std.specs.Prelude.{◌≡◌, ◌≤◌, ◌||◌, ◌∷◌, [], false, codes, is_some, length, option_copied};
ghost use Rattle.m_ports.specs.Giving.{Gives};
ghost use Rattle.m_text.specs.Pieces.{joined};
ghost use Rattle.survey_commands.specs.Records.{between};
ghost use Rattle.survey_commands.specs.inner.Outputs.{note_text, output_note, output_notes};

use m_fixed::Value;
use m_places::Label;
use m_ports::{Failed, Sink, give_pieces};
use observables::{FaceLabel, FaceOutput};
use tax_print::reported_note;

/// Writes the notes of outputs with these values, with a separator between them.
pub(crate) fn give_notes<K: Sink>(
    labels: &[FaceLabel],
    outputs: &[FaceOutput],
    values: &[Value],
    out: &mut K,
) -> Result<(), Failed>
    requires { length values.now ≤ length outputs.now }
    ensures { Gives K.written K.faults out.old out.new result (output_notes false labels.now outputs.now values.now) }
{
    let mut some = false;
    for (k, value) in values.iter().enumerate() {
        let note = output_note(labels, &outputs[k], *value);
        give_note(some, note, out)?;
        some = some_after(some, note);
    }
    Ok(())
}

// The verification that an output with this value notes, if any.
fn output_note<'a>(labels: &'a [FaceLabel], output: &FaceOutput, value: Value) -> Option<&'a Label>
    ensures { option_copied result ≡ output_note labels.now output.now value }
{
    match output {
        FaceOutput::Named(_) => None,
        FaceOutput::Noted(number) => reported_note(labels, *number, value),
    }
}

// Whether there is a note among those before this one and this one.
fn some_after(some: bool, note: Option<&Label>) -> bool
    ensures { result ≡ (some || is_some (option_copied note.entry)) }
{
    some || note.is_some()
}

// Writes a note; `some` means that there are others before it.
fn give_note<K: Sink>(some: bool, note: Option<&Label>, out: &mut K) -> Result<(), Failed>
    ensures { Gives K.written K.faults out.old out.new result (note_text some (option_copied note.entry)) }
{
    match note {
        Some(label) => give_label(between(some), label.verif.bytes(), label.error.bytes(), out),
        None => give_pieces(out, &[]),
    }
}

fn between(some: bool) -> &'static [u8]
    ensures { result.now ≡ between some }
{
    if some { b"; " } else { b"" }
}

fn give_label<'a, K: Sink>(
    before: &'a [u8],
    verif: &'a [u8],
    error: &'a [u8],
    out: &mut K,
) -> Result<(), Failed>
    ensures { Gives K.written K.faults out.old out.new result (joined (before.now ∷ verif.now ∷ codes " " ∷ error.now ∷ [])) }
{
    give_pieces(out, &[before, verif, b" ", error])
}
