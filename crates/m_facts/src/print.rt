//! Prints the findings.
ghost use Rattle.std.specs.Prelude.{◌≡◌, ◌≤◌, ◌∷◌, [], codes, slice_get, min};
ghost use Rattle.std.specs.Option.{option_map_or};
ghost use Rattle.m_ports.specs.Giving.{Gives};
ghost use Rattle.m_text.specs.Pieces.{joined};
ghost use Rattle.m_facts.specs.Found.{name_of};
ghost use Rattle.m_facts.specs.Lines.{silent_lines, code_at, codes_text, reads_line, printed_name, reads_lines, found_text};
ghost use Rattle.m_facts.specs.inner.Parts.{output_line, outputs_lines};

use crate::FactsFound;
use crate::line::print_fact;
use definedness::Fact;
use m_lint::print_check;
use m_places::Seq;
use m_ports::{Failed, Sink, give_pieces};
use micro_m::Base;
use observables::{Coded, Face, FaceOutput};

/// Writes the lines of the findings, each with its line feed: the fact of each requested cell, as
/// `IRN 0 to 9000 or undefined`; the checks that never stop, as `never stops 2000 A20`; and, once
/// for each name, the inputs on which the cell may depend, as `depends IRN 1AJ`. After a failure, a
/// prefix of the lines is written. Takes no memory.
pub fn print_facts<K: Sink>(
    base: &Base,
    face: &Face,
    found: &FactsFound,
    out: &mut K,
) -> Result<(), Failed>
    ensures { Gives K.written K.faults out.old out.new result (found_text base.now face.now found.now) }
{
    print_outputs(face.outputs.as_slice(), found.possible.as_slice(), out)?;
    print_silent(base, found.silent.as_slice(), out)?;
    print_reads(face, found.firsts.as_slice(), found.reads.as_slice(), out)
}

// The lines of the facts of outputs.
fn print_outputs<K: Sink>(
    outputs: &[FaceOutput],
    possible: &[Fact],
    out: &mut K,
) -> Result<(), Failed>
    ensures { Gives K.written K.faults out.old out.new result (outputs_lines outputs.now possible.now) }
{
    for k in 0..outputs.len().min(possible.len()) {
        print_output(&outputs[k], possible[k], out)?;
    }
    Ok(())
}

fn print_output<K: Sink>(output: &FaceOutput, fact: Fact, out: &mut K) -> Result<(), Failed>
    ensures { Gives K.written K.faults out.old out.new result (output_line output.now fact) }
{
    match output {
        FaceOutput::Named(name) => print_fact(name.bytes(), fact, out),
        FaceOutput::Noted(_) => give_pieces(out, &[]),
    }
}

// The lines of checks that never stop.
fn print_silent<K: Sink>(base: &Base, silent: &[u32], out: &mut K) -> Result<(), Failed>
    ensures { Gives K.written K.faults out.old out.new result (silent_lines base.now silent.now) }
{
    for k in silent {
        print_check(base, *k, out)?;
    }
    Ok(())
}

// The lines of these outputs and the inputs on which each may depend.
fn print_reads<K: Sink>(
    face: &Face,
    firsts: &[u32],
    reads: &[Seq<u32>],
    out: &mut K,
) -> Result<(), Failed>
    ensures { Gives K.written K.faults out.old out.new result (reads_lines face.now firsts.now reads.now) }
{
    for j in 0..firsts.len().min(reads.len()) {
        let name = printed_name(face.outputs.as_slice(), firsts[j]);
        print_read(face.inputs.as_slice(), name, reads[j].as_slice(), out)?;
    }
    Ok(())
}

// The name of the output with this number, empty if it has none.
fn printed_name(outputs: &[FaceOutput], k: u32) -> &[u8]
    ensures { result.now ≡ printed_name outputs.now k }
{
    match outputs.get(k as usize) {
        Some(output) => name_of(output),
        None => b"",
    }
}

fn name_of(output: &FaceOutput) -> &[u8]
    ensures { result.now ≡ option_map_or (λ name. name) (name_of output.now) [] }
{
    match output {
        FaceOutput::Named(name) => name.bytes(),
        FaceOutput::Noted(_) => b"",
    }
}

// The line of a cell's name and the inputs on which it may depend.
fn print_read<K: Sink>(
    inputs: &[Coded],
    name: &[u8],
    reads: &[u32],
    out: &mut K,
) -> Result<(), Failed>
    ensures { Gives K.written K.faults out.old out.new result (reads_line inputs.now name.now reads.now) }
{
    give_pieces(out, &[b"depends ", name])?;
    print_codes(inputs, reads, out)?;
    give_pieces(out, &[b"\n"])
}

fn print_codes<K: Sink>(inputs: &[Coded], reads: &[u32], out: &mut K) -> Result<(), Failed>
    ensures { Gives K.written K.faults out.old out.new result (codes_text inputs.now reads.now) }
{
    for n in reads {
        print_code(inputs, *n, out)?;
    }
    Ok(())
}

// A space and the code of the input with this number.
fn print_code<K: Sink>(inputs: &[Coded], n: u32, out: &mut K) -> Result<(), Failed>
    ensures { Gives K.written K.faults out.old out.new result (joined (codes " " ∷ code_at inputs.now n ∷ [])) }
{
    match inputs.get(n as usize) {
        Some(input) => give_pieces(out, &[b" ", input.code.bytes()]),
        None => give_pieces(out, &[b" "]),
    }
}
