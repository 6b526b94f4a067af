//! Reads code files.
ghost use Rattle.std.specs.Prelude.{◌≡◌, ◌≤◌, ◌+◌, length, [], codes, ◌++◌, MatchOption};
ghost use Rattle.m_places.specs.Refusals.{Outcome};
ghost use Rattle.m_places.specs.declared.limits.TheConstants.{CODE_FILE_BYTES};
ghost use Rattle.code_file.specs.declared.fault.CodeFault.TheVariants.{Memory};
ghost use Rattle.code_file.specs.Reading.{IsFormOf, IsCodeFault, IsShort, IsInstr};
ghost use Rattle.std.specs.List.{AllByRecursion};
ghost use Rattle.m_names.specs.Names.{AreDistinct};
ghost use Rattle.observables.specs.Inputs.{codes_of};
ghost use Rattle.code_file.specs.Text.{slots_line, input_line};
ghost use Rattle.code_file.specs.inner.Faces.{IsNoFront, IsFront, IsRightInput};
ghost use Rattle.code_file.specs.inner.Came.{Came, EndsFace, face_so_far, code_so_far, face_text, text_so_far, IsRightFace, IsCodeSoFar, fault_of};

use crate::cut::cut;
use crate::face_words::slots_of;
use crate::fault::CodeFault;
use crate::loaded::Loaded;
use crate::runs::{first_again, read_inputs, read_labels, read_outputs};
use crate::spelled::instr_of;
use m_places::Seq;
use observables::{Coded, Face};
use reg_machine::{CodeBuilder, Wrong};
use std::alloc::Global;

/// Parses a code file into code and face, or reports its first fault. It goes over the bytes once.
/// The memory it takes depends on the lines of the file, not on the numbers in them.
///
/// The lines `mcode 1`, `slots 0`, `output A`, `code`, `lit 0 undef`, `out 0 0` and `end` are code
/// with one output, which is undefined. Without `lit 0 undef` the result is `BadOrder(5)`, and
/// without `end` it is `BadLine(7)`.
pub fn read_code(alloc: Global, bytes: &[u8]) -> Result<Loaded, CodeFault>
    requires { length bytes.now ≤ CODE_FILE_BYTES }
    ensures { Outcome Memory result (IsFormOf bytes.now) (IsCodeFault bytes.now) }
{
    match cut(bytes, b'\n') {
        None => Err(CodeFault::BadHeader),
        Some((line, rest)) => {
            if line != b"mcode 1".as_slice() {
                return Err(CodeFault::BadHeader);
            }
            read_slots(alloc, bytes, rest)
        }
    }
}

// The slot count of the first line, and the bytes after that line.
fn next_slots(text: &[u8]) -> Option<(u32, &[u8])>
    ensures { MatchOption result (IsNoFront slots_line IsShort text.now) (λ p. IsFront slots_line IsShort text.now p.0 p.1.now) }
{
    match cut(text, b'\n') {
        None => None,
        Some((line, behind)) => match slots_of(line) {
            None => None,
            Some(slots) => Some((slots, behind)),
        },
    }
}

// Continues after the first line.
fn read_slots(alloc: Global, bytes: &[u8], rest: &[u8]) -> Result<Loaded, CodeFault>
    requires few { length bytes.now ≤ CODE_FILE_BYTES }
    requires text { bytes.now ≡ codes "mcode 1\n" ++ rest.now }
    ensures { Outcome Memory result (IsFormOf bytes.now) (IsCodeFault bytes.now) }
{
    match next_slots(rest) {
        None => Err(CodeFault::BadLine(2)),
        Some((slots, behind)) => read_codes(alloc, bytes, slots, behind),
    }
}

// Continues after the slot count.
fn read_codes(alloc: Global, bytes: &[u8], slots: u32, rest: &[u8]) -> Result<Loaded, CodeFault>
    requires few { length bytes.now ≤ CODE_FILE_BYTES }
    requires text { bytes.now ≡ face_text slots [] [] [] rest.now }
    ensures { Outcome Memory result (IsFormOf bytes.now) (IsCodeFault bytes.now) }
{
    let (inputs, behind) = read_inputs(alloc, rest)?;
    match first_again(alloc, &inputs)? {
        Some(k) => Err(CodeFault::BadLine(k + 3)),
        None => read_face(alloc, bytes, slots, inputs, behind),
    }
}

// Continues after the inputs.
fn read_face(
    alloc: Global,
    bytes: &[u8],
    slots: u32,
    inputs: Vec<Coded>,
    rest: &[u8],
) -> Result<Loaded, CodeFault>
    requires few { length bytes.now ≤ CODE_FILE_BYTES }
    requires text { bytes.now ≡ face_text slots inputs.items [] [] rest.now }
    requires right { AllByRecursion IsRightInput inputs.items }
    requires distinct { AreDistinct (codes_of inputs.items) }
    requires ends { IsNoFront input_line IsRightInput rest.now }
    ensures { Outcome Memory result (IsFormOf bytes.now) (IsCodeFault bytes.now) }
{
    let (labels, behind) = read_labels(alloc, rest)?;
    let (outputs, behind) = read_outputs(alloc, &labels, behind)?;
    let face = Face {
        inputs: Seq::from_vec(inputs),
        labels: Seq::from_vec(labels),
        outputs: Seq::from_vec(outputs),
    };
    read_start(alloc, bytes, slots, face, behind)
}

// Continues after the outputs.
fn read_start(
    alloc: Global,
    bytes: &[u8],
    slots: u32,
    face: Face,
    rest: &[u8],
) -> Result<Loaded, CodeFault>
    requires few { length bytes.now ≤ CODE_FILE_BYTES }
    requires text { bytes.now ≡ face_text slots face.inputs face.labels face.outputs rest.now }
    requires right { IsRightFace slots face.inputs face.labels face.outputs }
    requires ends { EndsFace (face_so_far slots face.inputs face.labels face.outputs) rest.now }
    ensures { Outcome Memory result (IsFormOf bytes.now) (IsCodeFault bytes.now) }
{
    let inputs = face.inputs.as_slice().len() as u32;
    let labels = face.labels.as_slice().len() as u32;
    let outputs = face.outputs.as_slice().len() as u32;
    let line = inputs + labels + outputs + 3;
    match cut(rest, b'\n') {
        None => Err(CodeFault::BadLine(line)),
        Some((text, behind)) => {
            if text != b"code".as_slice() {
                return Err(CodeFault::BadLine(line));
            }
            let code = CodeBuilder::new(alloc, inputs, slots, labels, outputs);
            read_instrs(bytes, slots, code, face, behind, line)
        }
    }
}

// Maps an invalid instruction to the fault of its line.
fn fault_of(wrong: Wrong, line: u32) -> CodeFault
    ensures { result ≡ fault_of wrong line }
{
    match wrong {
        Wrong::Number => CodeFault::BadLine(line),
        Wrong::Order => CodeFault::BadOrder(line),
    }
}

// Continues after the line `code`; `line` lines were read.
fn read_instrs(
    bytes: &[u8],
    slots: u32,
    code: CodeBuilder,
    face: Face,
    rest: &[u8],
    line: u32,
) -> Result<Loaded, CodeFault>
    requires few { length bytes.now ≤ CODE_FILE_BYTES }
    requires came { Came bytes.now (code_so_far slots face code.instrs) line rest.now }
    requires text { bytes.now ≡ text_so_far slots face code.instrs rest.now }
    requires right { IsRightFace slots face.inputs face.labels face.outputs }
    requires instrs { AllByRecursion IsInstr code.instrs }
    requires code { IsCodeSoFar slots face code }
    ensures { Outcome Memory result (IsFormOf bytes.now) (IsCodeFault bytes.now) }
{
    let mut made = code;
    let mut left = rest;
    let mut came = line;
    loop {
        match cut(left, b'\n') {
            None => return Err(CodeFault::BadLine(came + 1)),
            Some((text, behind)) => {
                if text == b"end".as_slice() {
                    return finish(bytes, slots, made, face, left, behind, came);
                }
                match instr_of(text) {
                    None => return Err(CodeFault::BadLine(came + 1)),
                    Some(instr) => {
                        match made.push(instr)? {
                            Some(wrong) => return Err(fault_of(wrong, came + 1)),
                            None => {}
                        }
                        left = behind;
                        came += 1;
                    }
                }
            }
        }
    }
}

// The loaded code at the line `end`, before which `line` lines were read.
fn finish(
    bytes: &[u8],
    slots: u32,
    code: CodeBuilder,
    face: Face,
    rest: &[u8],
    behind: &[u8],
    line: u32,
) -> Result<Loaded, CodeFault>
    requires few { length bytes.now ≤ CODE_FILE_BYTES }
    requires came { Came bytes.now (code_so_far slots face code.instrs) line rest.now }
    requires text { bytes.now ≡ text_so_far slots face code.instrs rest.now }
    requires right { IsRightFace slots face.inputs face.labels face.outputs }
    requires instrs { AllByRecursion IsInstr code.instrs }
    requires code { IsCodeSoFar slots face code }
    requires last { rest.now ≡ codes "end\n" ++ behind.now }
    ensures { Outcome Memory result (IsFormOf bytes.now) (IsCodeFault bytes.now) }
{
    let _ = bytes;
    let _ = slots;
    let _ = rest;
    match code.finish() {
        None => Err(CodeFault::BadLine(line + 1)),
        Some(code) => {
            if !behind.is_empty() {
                return Err(CodeFault::BadLine(line + 2));
            }
            Ok(Loaded { code, face })
        }
    }
}
