//! Writes code files.
ghost use Rattle.std.specs.Prelude.{◌++◌, codes};
ghost use Rattle.std.specs.List.{flat_map};
ghost use Rattle.m_ports.specs.Giving.{Gives};
ghost use Rattle.code_file.specs.Loading.{text_with};
ghost use Rattle.code_file.specs.Printable.{IsPrintable};
ghost use Rattle.code_file.specs.Reading.{IsFormOf};
ghost use Rattle.code_file.specs.Text.{slots_line, input_line, label_line, output_line, instr_line};

use crate::face_lines::{give_inputs, give_labels, give_outputs, give_slots};
use crate::fits::fits;
use crate::instr_lines::give_instrs;
use crate::loaded::Loaded;
use m_ports::{Failed, Sink, give_pieces};
use reg_machine::Code;

/// Writes loaded code as text. On a failure a prefix of the text was appended. It takes no memory.
///
/// If the face is printable the text is the form of the code, so `read_code` gives back the same
/// code and face. `form` is about the whole text, even if a write failed.
pub fn write_code<K: Sink>(loaded: &Loaded, out: &mut K) -> Result<(), Failed>
    ensures text { Gives K.written K.faults out.old out.new result (text_with loaded.now.code loaded.now.face) }
    ensures form { IsPrintable loaded.now.face → IsFormOf (text_with loaded.now.code loaded.now.face) loaded.now }
{
    fits(loaded);
    write_text(loaded, out)
}

fn write_text<K: Sink>(loaded: &Loaded, out: &mut K) -> Result<(), Failed>
    ensures { Gives K.written K.faults out.old out.new result (text_with loaded.now.code loaded.now.face) }
{
    give_pieces(out, &[b"mcode 1\n"])?;
    write_slots(loaded, out)
}

fn write_slots<K: Sink>(loaded: &Loaded, out: &mut K) -> Result<(), Failed>
    ensures { Gives K.written K.faults out.old out.new result (slots_line loaded.now.code.counts.slots
        ++ (flat_map input_line loaded.now.face.inputs ++ (flat_map label_line loaded.now.face.labels
        ++ (flat_map output_line loaded.now.face.outputs ++ (codes "code\n" ++ (flat_map instr_line loaded.now.code.instrs ++ codes "end\n")))))) }
{
    give_slots(loaded.code.slots(), out)?;
    write_inputs(loaded, out)
}

fn write_inputs<K: Sink>(loaded: &Loaded, out: &mut K) -> Result<(), Failed>
    ensures { Gives K.written K.faults out.old out.new result (flat_map input_line loaded.now.face.inputs ++ (flat_map label_line loaded.now.face.labels
        ++ (flat_map output_line loaded.now.face.outputs ++ (codes "code\n" ++ (flat_map instr_line loaded.now.code.instrs ++ codes "end\n"))))) }
{
    give_inputs(loaded.face.inputs.as_slice(), out)?;
    write_labels(loaded, out)
}

fn write_labels<K: Sink>(loaded: &Loaded, out: &mut K) -> Result<(), Failed>
    ensures { Gives K.written K.faults out.old out.new result (flat_map label_line loaded.now.face.labels
        ++ (flat_map output_line loaded.now.face.outputs ++ (codes "code\n" ++ (flat_map instr_line loaded.now.code.instrs ++ codes "end\n")))) }
{
    give_labels(loaded.face.labels.as_slice(), out)?;
    write_outputs(loaded, out)
}

fn write_outputs<K: Sink>(loaded: &Loaded, out: &mut K) -> Result<(), Failed>
    ensures { Gives K.written K.faults out.old out.new result (flat_map output_line loaded.now.face.outputs
        ++ (codes "code\n" ++ (flat_map instr_line loaded.now.code.instrs ++ codes "end\n"))) }
{
    give_outputs(loaded.face.outputs.as_slice(), out)?;
    write_instrs(&loaded.code, out)
}

fn write_instrs<K: Sink>(code: &Code, out: &mut K) -> Result<(), Failed>
    ensures { Gives K.written K.faults out.old out.new result (codes "code\n" ++ (flat_map instr_line code.now.instrs ++ codes "end\n")) }
{
    give_pieces(out, &[b"code\n"])?;
    write_end(code, out)
}

fn write_end<K: Sink>(code: &Code, out: &mut K) -> Result<(), Failed>
    ensures { Gives K.written K.faults out.old out.new result (flat_map instr_line code.now.instrs ++ codes "end\n") }
{
    give_instrs(code, out)?;
    give_pieces(out, &[b"end\n"])
}
