//! Lines of verifications: failed ones and noted ones.
ghost use Rattle.std.specs.Prelude.{◌∷◌, [], ◌≡◌, codes, option_copied};
ghost use Rattle.std.specs.Option.{option_map_or};
ghost use Rattle.m_ports.specs.Giving.{Gives};
ghost use Rattle.m_text.specs.Pieces.{joined, new_line};
ghost use Rattle.observables.specs.Answers.{is_reported, reported_note};
ghost use Rattle.observables.specs.Outputs.{verif_at};
ghost use Rattle.tax_print.specs.Lines.{kind_text, label_lines};

use m_fixed::Value;
use m_places::{ErrorKind, Label};
use m_ports::{Failed, Sink, give_pieces};
use observables::FaceLabel;

/// Writes the lines of a note with this value and this label number: `noted 2000 A20 discordance`,
/// and then the error's text; nothing if the note isn't reported.
pub(crate) fn print_note<K: Sink>(
    labels: &[FaceLabel],
    number: u32,
    value: Value,
    out: &mut K,
) -> Result<(), Failed>
    ensures { Gives K.written K.faults out.old out.new result (option_map_or (label_lines (codes "noted")) (reported_note labels.now number value) []) }
{
    match reported_note(labels, number, value) {
        Some(label) => print_label(b"noted", label, out),
        None => give_pieces(out, &[]),
    }
}

/// The verification that a note with this value and this label number reports, if any.
pub fn reported_note(labels: &[FaceLabel], number: u32, value: Value) -> Option<&Label>
    ensures { option_copied result ≡ reported_note labels.now number value }
{
    if is_reported(value) {
        verif_at(labels, number)
    } else {
        None
    }
}

fn is_reported(value: Value) -> bool
    ensures { result ≡ is_reported value }
{
    match value {
        Value::Undef => false,
        Value::Num(amount) => amount.millionths() != 0,
        Value::Over => false,
    }
}

// The verification of the label with this number, if there is one.
fn verif_at(labels: &[FaceLabel], number: u32) -> Option<&Label>
    ensures { option_copied result ≡ verif_at labels.now number }
{
    match labels.get(number as usize) {
        Some(FaceLabel::Verif(label)) => Some(label),
        Some(FaceLabel::DriverLine(_)) => None,
        None => None,
    }
}

/// Writes the two lines of a verification after a word: `failed 2000 A20 anomalie`, and then the
/// error's text.
pub(crate) fn print_label<K: Sink>(word: &[u8], label: &Label, out: &mut K) -> Result<(), Failed>
    ensures { Gives K.written K.faults out.old out.new result (label_lines word.now label.now) }
{
    let verif = label.verif.bytes();
    let error = label.error.bytes();
    let text = label.text.bytes();
    give_label(word, verif, error, kind_text(label.kind), text, out)
}

fn give_label<'a, K: Sink>(
    word: &'a [u8],
    verif: &'a [u8],
    error: &'a [u8],
    kind: &'a [u8],
    text: &'a [u8],
    out: &mut K,
) -> Result<(), Failed>
    ensures { Gives K.written K.faults out.old out.new result
        (joined (word.now ∷ codes " " ∷ verif.now ∷ codes " " ∷ error.now ∷ codes " " ∷ kind.now ∷ new_line ∷ text.now ∷ new_line ∷ [])) }
{
    give_pieces(
        out,
        &[
            word, b" ", verif, b" ", error, b" ", kind, b"\n", text, b"\n",
        ],
    )
}

fn kind_text(kind: ErrorKind) -> &'static [u8]
    ensures { result.now ≡ kind_text kind }
{
    match kind {
        ErrorKind::Anomalie => b"anomalie",
        ErrorKind::Discordance => b"discordance",
        ErrorKind::Informative => b"informative",
    }
}
