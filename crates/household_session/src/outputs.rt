//! Prints the answer of a settled sheet, without a list of its values.
ghost use Rattle.std.specs.Prelude.{◌≡◌, ◌<◌, ◌^◌, map, length};
ghost use Rattle.m_ports.specs.Giving.{Gives};
ghost use Rattle.flat_code.specs.Faces.{IsFaceOf};
ghost use Rattle.flat_code.specs.Runs.{flat_run, node_values, value_at};
ghost use Rattle.tax_print.specs.Lines.{answer_lines, outputs_lines};

use m_ports::{Failed, Sink};
use observables::Face;
use tax_print::{print_stop, print_values};
use value_sheet::Sheet;

/// Writes the lines of the answer of a settled sheet's program to its inputs.
pub(crate) fn print_sheet<K: Sink>(sheet: &Sheet, face: &Face, out: &mut K) -> Result<(), Failed>
    requires settled { sheet.now.settled ≡ sheet.now.now }
    requires face { IsFaceOf face.now sheet.now.flat }
    ensures { Gives K.written K.faults out.old out.new result (answer_lines face.now (flat_run sheet.now.flat sheet.now.now)) }
{
    match sheet.stop() {
        Some(stop) => print_stop(face, stop, out),
        None => print_outputs(sheet, face, out),
    }
}

// Writes the lines of the outputs.
fn print_outputs<K: Sink>(sheet: &Sheet, face: &Face, out: &mut K) -> Result<(), Failed>
    requires settled { sheet.now.settled ≡ sheet.now.now }
    requires named { length face.now.outputs ≡ length sheet.now.flat.outputs }
    requires few { length face.now.outputs < 2 ^ 32 }
    ensures { Gives K.written K.faults out.old out.new result
        (outputs_lines face.now.labels face.now.outputs (map (value_at (node_values sheet.now.now sheet.now.flat.nodes)) sheet.now.flat.outputs)) }
{
    let count = face.outputs.as_slice().len();
    for k in 0..count {
        print_values(face, k as u32, sheet.output(k as u32), out)?;
    }
    Ok(())
}
