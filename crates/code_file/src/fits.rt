//! Shows that the numbers of loaded code are in the ranges of the format. The types guarantee it,
//! but a contract learns it of a number only where that number is read; so these functions read
//! every number. They return nothing and take no memory.
ghost use Rattle.std.specs.Prelude.{◌≡◌, ◌<◌, None};
ghost use Rattle.std.specs.List.{AllByRecursion};
ghost use Rattle.m_fixed.specs.Amounts.{IsAmount};
ghost use Rattle.reg_machine.specs.Flow.{code_fault};
ghost use Rattle.code_file.specs.Reading.{Fits, IsFittingLabel, IsFittingOutput, IsInstr, IsLiteral, IsShort};
ghost use Rattle.code_file.specs.inner.Read.{IsReadInstr};

use crate::loaded::Loaded;
use m_fixed::{Amount, Value};
use observables::{FaceLabel, FaceOutput};
use reg_machine::{Code, Instr};

/// All numbers of loaded code are in range, and the code is valid.
pub fn fits(loaded: &Loaded)
    ensures fits { Fits loaded.now }
    ensures right { code_fault loaded.now.code ≡ None }
{
    is_short(loaded.code.slots());
    labels_fit(loaded.face.labels.as_slice());
    outputs_fit(loaded.face.outputs.as_slice());
    code_fits(&loaded.code);
}

// A `u32` is below 2^32.
fn is_short(n: u32)
    ensures { IsShort n }
{
    let _ = n;
}

fn labels_fit(labels: &[FaceLabel])
    ensures { AllByRecursion IsFittingLabel labels.now }
{
    for k in 0..labels.len() {
        label_fits(&labels[k]);
    }
}

fn label_fits(label: &FaceLabel)
    ensures { IsFittingLabel label.now }
{
    match label {
        FaceLabel::Verif(label) => are_bytes(label.text.bytes()),
        FaceLabel::DriverLine(line) => is_short(*line),
    }
}

fn are_bytes(text: &[u8])
    ensures { AllByRecursion (λ b. b < 256) text.now }
{
    for k in 0..text.len() {
        is_byte(text[k]);
    }
}

fn is_byte(byte: u8)
    ensures { byte < 256 }
{
    let _ = byte;
}

fn outputs_fit(outputs: &[FaceOutput])
    ensures { AllByRecursion IsFittingOutput outputs.now }
{
    for k in 0..outputs.len() {
        output_fits(&outputs[k]);
    }
}

fn output_fits(output: &FaceOutput)
    ensures { IsFittingOutput output.now }
{
    match output {
        FaceOutput::Named(_) => {}
        FaceOutput::Noted(number) => is_short(*number),
    }
}

// Validity of the code implies the ranges of registers and of arguments past an operator's arity.
fn code_fits(code: &Code)
    ensures right { code_fault code.now ≡ None }
    ensures instrs { AllByRecursion IsInstr code.now.instrs }
{
    let _kept = code.parts();
    instrs_are_read(code);
}

fn instrs_are_read(code: &Code)
    ensures { AllByRecursion IsReadInstr code.now.instrs }
{
    for place in 0..code.len() {
        is_read(&code.instr(place));
    }
}

fn is_read(instr: &Instr)
    ensures { IsReadInstr instr.now }
{
    match instr {
        Instr::Take(_, n) => is_short(*n),
        Instr::Lit(_, value) => is_literal(value),
        Instr::Do(_, _, _, _, _) => {}
        Instr::Store(k, _) => is_short(*k),
        Instr::Load(_, k) => is_short(*k),
        Instr::Check(_, _, _, label) => is_short(*label),
        Instr::Output(k, _) => is_short(*k),
    }
}

fn is_literal(value: &Value)
    ensures { IsLiteral value.now }
{
    match value {
        Value::Undef => {}
        Value::Num(amount) => is_amount(*amount),
        Value::Over => {}
    }
}

fn is_amount(amount: Amount)
    ensures { IsAmount amount }
{
    let _millionths = amount.millionths();
}
