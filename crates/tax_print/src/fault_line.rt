//! Printing of error lines.
ghost use Rattle.std.specs.Prelude.{◌∷◌, [], codes, decimal};
ghost use Rattle.m_ports.specs.Giving.{Gives};
ghost use Rattle.m_text.specs.Pieces.{joined};
ghost use Rattle.m_text.specs.Pieces.{new_line};
ghost use Rattle.tax_print.specs.FaultLines.{fault_line, input_line, names_text};

use crate::fault::Fault;
use itoa::Buffer;
use m_places::{Name, Place};
use m_ports::{Failed, Sink, give_all, give_pieces};

/// Writes the line of an error, with its line feed: `Fault::OfNumber(b"refused list line ", 2)`
/// gives `refused list line 2`. On a failure a prefix of the line was appended. Takes no memory.
pub fn give_fault<K: Sink>(fault: Fault<'_>, out: &mut K) -> Result<(), Failed>
    ensures { Gives K.written K.faults out.old out.new result (fault_line fault.entry) }
{
    match fault {
        Fault::Words(words) => give_words(out, words, b""),
        Fault::OfName(words, name) => give_words(out, words, name),
        Fault::OfNames(words, names) => give_names(out, words, names),
        Fault::OfNumber(words, number) => give_number(out, words, number),
        Fault::InInput(input, words) => give_input(out, input, words),
        Fault::AtLine(input, line, words) => give_line(out, input, line, words, b""),
        Fault::AtLineName(input, line, words, name) => give_line(out, input, line, words, name),
        Fault::AtPlace(file, place, words) => give_place(out, file, place, words, b""),
        Fault::AtPlaceName(file, place, words, name) => give_place(out, file, place, words, name),
    }
}

fn give_words<K: Sink>(out: &mut K, words: &[u8], name: &[u8]) -> Result<(), Failed>
    ensures { Gives K.written K.faults out.old out.new result (joined (words.now ∷ name.now ∷ new_line ∷ [])) }
{
    give_pieces(out, &[words, name, b"\n"])
}

// A line with a number at its end.
fn give_number<K: Sink>(out: &mut K, words: &[u8], number: u64) -> Result<(), Failed>
    ensures { Gives K.written K.faults out.old out.new result (joined (words.now ∷ decimal number ∷ new_line ∷ [])) }
{
    let mut buffer = Buffer::new();
    let digits = buffer.format(number).as_bytes();
    give_words(out, words, digits)
}

fn give_input<K: Sink>(out: &mut K, input: &[u8], words: &[u8]) -> Result<(), Failed>
    ensures { Gives K.written K.faults out.old out.new result (input_line input.now words.now) }
{
    give_pieces(out, &[b"refused ", input, b": ", words, b"\n"])
}

fn give_line<K: Sink>(
    out: &mut K,
    input: &[u8],
    line: u32,
    words: &[u8],
    name: &[u8],
) -> Result<(), Failed>
    ensures { Gives K.written K.faults out.old out.new result
        (joined (codes "refused " ∷ input.now ∷ codes " line " ∷ decimal line ∷ codes ": " ∷ words.now ∷ name.now ∷ new_line ∷ [])) }
{
    let mut buffer = Buffer::new();
    let digits = buffer.format(line).as_bytes();
    give_at_line(out, input, digits, words, name)
}

fn give_at_line<'a, K: Sink>(
    out: &mut K,
    input: &'a [u8],
    line: &'a [u8],
    words: &'a [u8],
    name: &'a [u8],
) -> Result<(), Failed>
    ensures { Gives K.written K.faults out.old out.new result
        (joined (codes "refused " ∷ input.now ∷ codes " line " ∷ line.now ∷ codes ": " ∷ words.now ∷ name.now ∷ new_line ∷ [])) }
{
    give_pieces(
        out,
        &[
            b"refused ",
            input,
            b" line ",
            line,
            b": ",
            words,
            name,
            b"\n",
        ],
    )
}

fn give_place<K: Sink>(
    out: &mut K,
    file: &[u8],
    place: Place,
    words: &[u8],
    name: &[u8],
) -> Result<(), Failed>
    ensures { Gives K.written K.faults out.old out.new result
        (joined (codes "refused " ∷ file.now ∷ codes " line " ∷ decimal place.line ∷ codes " byte " ∷ decimal place.byte
        ∷ codes ": " ∷ words.now ∷ name.now ∷ new_line ∷ [])) }
{
    let mut line_buffer = Buffer::new();
    let line = line_buffer.format(place.line).as_bytes();
    let mut byte_buffer = Buffer::new();
    let byte = byte_buffer.format(place.byte).as_bytes();
    give_at_place(out, file, line, byte, words, name)
}

fn give_at_place<'a, K: Sink>(
    out: &mut K,
    file: &'a [u8],
    line: &'a [u8],
    byte: &'a [u8],
    words: &'a [u8],
    name: &'a [u8],
) -> Result<(), Failed>
    ensures { Gives K.written K.faults out.old out.new result
        (joined (codes "refused " ∷ file.now ∷ codes " line " ∷ line.now ∷ codes " byte " ∷ byte.now
        ∷ codes ": " ∷ words.now ∷ name.now ∷ new_line ∷ [])) }
{
    give_pieces(
        out,
        &[
            b"refused ",
            file,
            b" line ",
            line,
            b" byte ",
            byte,
            b": ",
            words,
            name,
            b"\n",
        ],
    )
}

// A line with names at its end, each after a space.
fn give_names<K: Sink>(out: &mut K, words: &[u8], names: &[Name]) -> Result<(), Failed>
    ensures { Gives K.written K.faults out.old out.new result (joined (words.now ∷ names_text names.now ∷ new_line ∷ [])) }
{
    give_all(out, words)?;
    for name in names {
        give_pieces(out, &[b" ", name.bytes()])?;
    }
    give_pieces(out, &[b"\n"])
}
