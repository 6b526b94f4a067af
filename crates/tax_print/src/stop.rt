ghost use Rattle.std.specs.Prelude.{◌∷◌, [], ◌<◌, ◌≡◌, length, codes, decimal};
ghost use Rattle.m_ports.specs.Giving.{Gives};
ghost use Rattle.m_text.specs.Pieces.{joined};
ghost use Rattle.observables.specs.Answers.{label_number, cause_of, over};
ghost use Rattle.m_text.specs.Pieces.{new_line};
ghost use Rattle.tax_print.specs.Lines.{cause_lines, stop_lines};

use crate::note::print_label;
use itoa::Buffer;
use m_places::Label;
use m_ports::{Failed, Sink, give_pieces};
use observables::{Face, FaceLabel, Stop};

/// Writes the lines of what stopped a run: `failed 2000 A20 anomalie` and then the error's text,
/// `over verification 2000 A20`, or `over driver line 2`. On a failure a prefix of the lines was
/// appended. Takes no memory.
pub fn print_stop<K: Sink>(face: &Face, stop: Stop, out: &mut K) -> Result<(), Failed>
    requires { label_number stop < length face.now.labels }
    ensures { Gives K.written K.faults out.old out.new result (stop_lines face.now.labels stop) }
{
    let number = label_number(stop);
    print_cause(&face.labels.as_slice()[number as usize], stop, out)
}

/// The number of the label at which a run stopped.
pub fn label_number(stop: Stop) -> u32
    ensures { result ≡ label_number stop }
{
    match stop {
        Stop::Failed(label) => label,
        Stop::Over(label) => label,
    }
}

fn print_cause<K: Sink>(label: &FaceLabel, stop: Stop, out: &mut K) -> Result<(), Failed>
    ensures { Gives K.written K.faults out.old out.new result (cause_lines (cause_of stop label.now)) }
{
    match label {
        FaceLabel::Verif(label) => match stop {
            Stop::Failed(_) => print_label(b"failed", label, out),
            Stop::Over(_) => print_over(label, out),
        },
        FaceLabel::DriverLine(line) => print_driver_line(*line, out),
    }
}

fn print_over<K: Sink>(label: &Label, out: &mut K) -> Result<(), Failed>
    ensures { Gives K.written K.faults out.old out.new result (cause_lines (over label.now)) }
{
    let verif = label.verif.bytes();
    let error = label.error.bytes();
    give_pieces(out, &[b"over verification ", verif, b" ", error, b"\n"])
}

fn print_driver_line<K: Sink>(line: u32, out: &mut K) -> Result<(), Failed>
    ensures { Gives K.written K.faults out.old out.new result
        (joined (codes "over driver line " ∷ decimal line ∷ new_line ∷ [])) }
{
    let mut buffer = Buffer::new();
    let digits = buffer.format(line).as_bytes();
    give_pieces(out, &[b"over driver line ", digits, b"\n"])
}
