//! Lines are printed into a text of a fixed size and written by one call; lines that don't fit are written directly to
//! the output. Texts that may be longer go through a buffer.
ghost use Rattle.std.specs.Prelude.{◌≡◌, ◌<◌, ◌++◌, length};
ghost use Rattle.m_ports.specs.Giving.{Gives};
ghost use Rattle.code_file.specs.Loading.{text_with};
ghost use Rattle.code_file.specs.Printable.{IsPrintable};
ghost use Rattle.code_file.specs.Reading.{IsFormOf};
ghost use Rattle.tax_print.specs.Lines.{AnswerIsWithin, answer_lines};
ghost use Rattle.code_answers.specs.Larges.{large_line};

use crate::large::print_large;
use code_file::{Loaded, write_code};
use m_ports::{BufferedSink, Failed, FixedText, Origin, Printed, Sink, give_all};
use observables::{Answer, Face};
use std::marker::Brand;
use tax_print::print_answer;

/// The size in bytes of the text for the lines of one answer.
pub(crate) const ANSWER_ROOM: usize = 65_536;

// The size in bytes of the buffer for longer texts.
const BUFFER_ROOM: usize = 65_536;

/// Writes the lines of an answer.
pub(crate) fn give_answer<K: Sink>(
    face: &Face,
    answer: &Answer,
    held: &mut FixedText,
    out: &mut K,
) -> Result<(), Failed>
    requires { AnswerIsWithin face.now answer.now }
    ensures { Gives K.written K.faults out.old out.new result (answer_lines face.now answer.now) }
{
    held.clear();
    match print_answer(face, answer, held) {
        Ok(()) => give_all(out, held.text()),
        Err(_) => print_answer(face, answer, out),
    }
}

/// Writes the line `large N`, and then the lines of an answer.
pub(crate) fn give_large<K: Sink>(
    n: u32,
    face: &Face,
    answer: &Answer,
    held: &mut FixedText,
    out: &mut K,
) -> Result<(), Failed>
    requires { AnswerIsWithin face.now answer.now }
    ensures { Gives K.written K.faults out.old out.new result (large_line n ++ answer_lines face.now answer.now) }
{
    held.clear();
    match print_large(n, face, answer, held) {
        Ok(()) => give_all(out, held.text()),
        Err(_) => print_large(n, face, answer, out),
    }
}

/// Writes the code file of loaded code, in pieces of one size. Takes no memory.
pub fn give_code<K: Sink>(loaded: &Loaded, out: &mut K) -> Result<(), Failed>
    ensures gives { Gives K.written K.faults out.old out.new result (text_with loaded.now.code loaded.now.face) }
    ensures form { IsPrintable loaded.now.face → IsFormOf (text_with loaded.now.code loaded.now.face) loaded.now }
{
    let mut room = [0; BUFFER_ROOM];
    let printed = buffer_code::<K, Brand>(loaded, &mut room, out);
    printed.result
}

// Writes it through a buffer over these bytes.
fn buffer_code<'a, K: Sink, O: Origin>(
    loaded: &Loaded,
    room: &'a mut [u8],
    out: &'a mut K,
) -> Printed<'a, K>
    requires name { out.ghost_name ≡ O.name }
    requires start { K.written out.old ≡ O.start }
    requires some { 0 < length room.old }
    ensures name { result.out.ghost_name ≡ out.entry.ghost_name }
    ensures gives { Gives K.written K.faults out.old result.out.now result.result (text_with loaded.now.code loaded.now.face) }
    ensures form { IsPrintable loaded.now.face → IsFormOf (text_with loaded.now.code loaded.now.face) loaded.now }
{
    let mut buffered = BufferedSink::<'a, K, O>::new(out, room);
    let printed = write_code(loaded, &mut buffered);
    buffered.finish(printed)
}
