//! Writes the lines of a face.
ghost use Rattle.std.specs.Prelude.{◌≡◌, ◌∷◌, ◌++◌, ◌/◌, ◌%◌, [], codes, decimal};
ghost use Rattle.std.specs.List.{flat_map};
ghost use Rattle.m_ports.specs.Giving.{Gives};
ghost use Rattle.m_text.specs.Pieces.{joined, new_line};
ghost use Rattle.code_file.specs.Text.{slots_line, input_line, label_line, output_line, verif_front, hex_of, hex_digit};

use crate::words::{hex_digit, kind_word, kind_words};
use itoa::Buffer;
use m_places::Label;
use m_ports::{Failed, Sink, give_pieces};
use observables::{Coded, FaceLabel, FaceOutput};

/// Writes a word, a number and a line feed.
pub fn give_number<K: Sink>(word: &[u8], number: u32, out: &mut K) -> Result<(), Failed>
    ensures { Gives K.written K.faults out.old out.new result (joined (word.now ∷ decimal number ∷ new_line ∷ [])) }
{
    let mut buffer = Buffer::new();
    let digits = buffer.format(number).as_bytes();
    give_pieces(out, &[word, digits, b"\n"])
}

/// Writes the line of the slot count.
pub fn give_slots<K: Sink>(slots: u32, out: &mut K) -> Result<(), Failed>
    ensures { Gives K.written K.faults out.old out.new result (slots_line slots) }
{
    give_number(b"slots ", slots, out)
}

/// Writes the lines of inputs.
pub fn give_inputs<K: Sink>(inputs: &[Coded], out: &mut K) -> Result<(), Failed>
    ensures { Gives K.written K.faults out.old out.new result (flat_map input_line inputs.now) }
{
    for k in 0..inputs.len() {
        give_input(&inputs[k], out)?;
    }
    Ok(())
}

fn give_input<K: Sink>(input: &Coded, out: &mut K) -> Result<(), Failed>
    ensures { Gives K.written K.faults out.old out.new result (input_line input.now) }
{
    let code = input.code.bytes();
    give_coded(code, kind_words(input.kind), out)
}

fn give_coded<'a, K: Sink>(code: &'a [u8], kind: &'a [u8], out: &mut K) -> Result<(), Failed>
    ensures { Gives K.written K.faults out.old out.new result (joined (codes "input " ∷ code.now ∷ kind.now ∷ new_line ∷ [])) }
{
    give_pieces(out, &[b"input ", code, kind, b"\n"])
}

/// Writes the lines of labels.
pub fn give_labels<K: Sink>(labels: &[FaceLabel], out: &mut K) -> Result<(), Failed>
    ensures { Gives K.written K.faults out.old out.new result (flat_map label_line labels.now) }
{
    for k in 0..labels.len() {
        give_label(&labels[k], out)?;
    }
    Ok(())
}

fn give_label<K: Sink>(label: &FaceLabel, out: &mut K) -> Result<(), Failed>
    ensures { Gives K.written K.faults out.old out.new result (label_line label.now) }
{
    match label {
        FaceLabel::Verif(label) => give_verif(label, out),
        FaceLabel::DriverLine(line) => give_number(b"label driver ", *line, out),
    }
}

fn give_verif<K: Sink>(label: &Label, out: &mut K) -> Result<(), Failed>
    ensures { Gives K.written K.faults out.old out.new result (verif_front label.now ++ (hex_of label.now.text ++ new_line)) }
{
    give_front(label, out)?;
    give_text(label.text.bytes(), out)
}

fn give_front<K: Sink>(label: &Label, out: &mut K) -> Result<(), Failed>
    ensures { Gives K.written K.faults out.old out.new result (verif_front label.now) }
{
    let verif = label.verif.bytes();
    let error = label.error.bytes();
    give_words(verif, error, kind_word(label.kind), out)
}

fn give_words<'a, K: Sink>(
    verif: &'a [u8],
    error: &'a [u8],
    kind: &'a [u8],
    out: &mut K,
) -> Result<(), Failed>
    ensures { Gives K.written K.faults out.old out.new result
        (joined (codes "label verif " ∷ verif.now ∷ codes " " ∷ error.now ∷ codes " " ∷ kind.now ∷ codes " " ∷ [])) }
{
    give_pieces(
        out,
        &[b"label verif ", verif, b" ", error, b" ", kind, b" "],
    )
}

// Writes a text as hexadecimal digits and a line feed.
fn give_text<K: Sink>(text: &[u8], out: &mut K) -> Result<(), Failed>
    ensures { Gives K.written K.faults out.old out.new result (hex_of text.now ++ new_line) }
{
    give_hex(text, out)?;
    give_pieces(out, &[b"\n"])
}

fn give_hex<K: Sink>(text: &[u8], out: &mut K) -> Result<(), Failed>
    ensures { Gives K.written K.faults out.old out.new result (hex_of text.now) }
{
    for byte in text {
        give_byte(*byte, out)?;
    }
    Ok(())
}

fn give_byte<K: Sink>(byte: u8, out: &mut K) -> Result<(), Failed>
    ensures { Gives K.written K.faults out.old out.new result (hex_digit (byte / 16) ∷ hex_digit (byte % 16) ∷ []) }
{
    let digits = [hex_digit(byte / 16), hex_digit(byte % 16)];
    give_pieces(out, &[&digits])
}

/// Writes the lines of outputs.
pub fn give_outputs<K: Sink>(outputs: &[FaceOutput], out: &mut K) -> Result<(), Failed>
    ensures { Gives K.written K.faults out.old out.new result (flat_map output_line outputs.now) }
{
    for k in 0..outputs.len() {
        give_output(&outputs[k], out)?;
    }
    Ok(())
}

fn give_output<K: Sink>(output: &FaceOutput, out: &mut K) -> Result<(), Failed>
    ensures { Gives K.written K.faults out.old out.new result (output_line output.now) }
{
    match output {
        FaceOutput::Named(name) => give_pieces(out, &[b"output ", name.bytes(), b"\n"]),
        FaceOutput::Noted(number) => give_number(b"note ", *number, out),
    }
}
