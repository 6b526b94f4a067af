//! The field of a stop.
ghost use Rattle.std.specs.Prelude.{◌∷◌, [], ◌<◌, ◌≡◌, length, codes, decimal};
ghost use Rattle.m_ports.specs.Giving.{Gives};
ghost use Rattle.m_text.specs.Pieces.{joined};
ghost use Rattle.observables.specs.Answers.{label_number, cause_of};
ghost use Rattle.survey_commands.specs.Records.{cause_field};
ghost use Rattle.survey_commands.specs.inner.Outputs.{stop_field};

use itoa::Buffer;
use m_places::Label;
use m_ports::{Failed, Sink, give_pieces};
use observables::{FaceLabel, Stop};
use tax_print::label_number;

/// Writes the field of a stop: `failed 2000 A20`, `over verification 2000 A20` or `over driver line 2`.
pub(crate) fn give_stop<K: Sink>(
    labels: &[FaceLabel],
    stop: Stop,
    out: &mut K,
) -> Result<(), Failed>
    requires { label_number stop < length labels.now }
    ensures { Gives K.written K.faults out.old out.new result (stop_field labels.now stop) }
{
    let number = label_number(stop);
    give_cause(&labels[number as usize], stop, out)
}

fn give_cause<K: Sink>(label: &FaceLabel, stop: Stop, out: &mut K) -> Result<(), Failed>
    ensures { Gives K.written K.faults out.old out.new result (cause_field (cause_of stop label.now)) }
{
    match label {
        FaceLabel::Verif(label) => match stop {
            Stop::Failed(_) => give_verif(b"failed ", label, out),
            Stop::Over(_) => give_verif(b"over verification ", label, out),
        },
        FaceLabel::DriverLine(line) => give_driver_line(*line, out),
    }
}

fn give_verif<K: Sink>(word: &[u8], label: &Label, out: &mut K) -> Result<(), Failed>
    ensures { Gives K.written K.faults out.old out.new result (joined (word.now ∷ label.now.verif ∷ codes " " ∷ label.now.error ∷ [])) }
{
    give_words(word, label.verif.bytes(), label.error.bytes(), out)
}

fn give_words<'a, K: Sink>(
    word: &'a [u8],
    verif: &'a [u8],
    error: &'a [u8],
    out: &mut K,
) -> Result<(), Failed>
    ensures { Gives K.written K.faults out.old out.new result (joined (word.now ∷ verif.now ∷ codes " " ∷ error.now ∷ [])) }
{
    give_pieces(out, &[word, verif, b" ", error])
}

fn give_driver_line<K: Sink>(line: u32, out: &mut K) -> Result<(), Failed>
    ensures { Gives K.written K.faults out.old out.new result (joined (codes "over driver line " ∷ decimal line ∷ [])) }
{
    let mut buffer = Buffer::new();
    let digits = buffer.format(line).as_bytes();
    give_pieces(out, &[b"over driver line ", digits])
}
