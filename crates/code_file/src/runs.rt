//! Parses runs of lines of one kind in a face.
ghost use Rattle.std.specs.Prelude.{◌≡◌, ◌<◌, IfOk, MatchOption, length, is_some};
ghost use Rattle.m_names.specs.Names.{AreDistinct};
ghost use Rattle.observables.specs.Inputs.{codes_of};
ghost use Rattle.observables.specs.Outputs.{verif_at};
ghost use Rattle.code_file.specs.Text.{input_line, label_line, output_line};
ghost use Rattle.code_file.specs.inner.Faces.{IsNoFront, IsFront, IsRightInput, IsRightLabel, IsRightOutput, IsRun, AreOutputs, IsAgain, may_follow, is_name};

use crate::cut::cut;
use crate::face_words::{read_input, read_label, read_output};
use m_names::{Key, Names, NamesDigest};
use observables::{Coded, FaceLabel, FaceOutput};
use std::alloc::{AllocError, Global};

// The input of the first line, and the bytes after that line.
fn next_input(alloc: Global, text: &[u8]) -> Result<Option<(Coded, &[u8])>, AllocError>
    ensures { IfOk result (λ o. MatchOption o (IsNoFront input_line IsRightInput text.now) (λ p. IsFront input_line IsRightInput text.now p.0 p.1.now)) }
{
    match cut(text, b'\n') {
        None => Ok(None),
        Some((line, behind)) => match read_input(alloc, line)? {
            None => Ok(None),
            Some(input) => Ok(Some((input, behind))),
        },
    }
}

/// The inputs of the longest run of `input` lines at the start, and the bytes after them.
pub fn read_inputs(alloc: Global, text: &[u8]) -> Result<(Vec<Coded>, &[u8]), AllocError>
    ensures { IfOk result (λ r. IsRun input_line IsRightInput text.now r.0.items r.1.now) }
{
    let mut inputs = Vec::new(alloc);
    let mut rest = text;
    loop {
        match next_input(alloc, rest)? {
            None => return Ok((inputs, rest)),
            Some((input, behind)) => {
                inputs.push(input)?;
                rest = behind;
            }
        }
    }
}

// The label of the first line, and the bytes after that line.
fn next_label(alloc: Global, text: &[u8]) -> Result<Option<(FaceLabel, &[u8])>, AllocError>
    ensures { IfOk result (λ o. MatchOption o (IsNoFront label_line IsRightLabel text.now) (λ p. IsFront label_line IsRightLabel text.now p.0 p.1.now)) }
{
    match cut(text, b'\n') {
        None => Ok(None),
        Some((line, behind)) => match read_label(alloc, line)? {
            None => Ok(None),
            Some(label) => Ok(Some((label, behind))),
        },
    }
}

/// The labels of the longest run of `label` lines at the start, and the bytes after them.
pub fn read_labels(alloc: Global, text: &[u8]) -> Result<(Vec<FaceLabel>, &[u8]), AllocError>
    ensures { IfOk result (λ r. IsRun label_line IsRightLabel text.now r.0.items r.1.now) }
{
    let mut labels = Vec::new(alloc);
    let mut rest = text;
    loop {
        match next_label(alloc, rest)? {
            None => return Ok((labels, rest)),
            Some((label, behind)) => {
                labels.push(label)?;
                rest = behind;
            }
        }
    }
}

// The output of the first line, and the bytes after that line.
fn next_output(alloc: Global, text: &[u8]) -> Result<Option<(FaceOutput, &[u8])>, AllocError>
    ensures { IfOk result (λ o. MatchOption o (IsNoFront output_line IsRightOutput text.now) (λ p. IsFront output_line IsRightOutput text.now p.0 p.1.now)) }
{
    match cut(text, b'\n') {
        None => Ok(None),
        Some((line, behind)) => match read_output(alloc, line)? {
            None => Ok(None),
            Some(output) => Ok(Some((output, behind))),
        },
    }
}

// Whether the label with this number is that of a verification.
fn is_verif(labels: &[FaceLabel], number: u32) -> bool
    ensures { result ≡ is_some (verif_at labels.now number) }
{
    match labels.get(number as usize) {
        Some(FaceLabel::Verif(_)) => true,
        Some(FaceLabel::DriverLine(_)) => false,
        None => false,
    }
}

// Whether an output may follow others. `named` is whether one of them has a name: after a name
// there is no note.
fn may_follow(labels: &[FaceLabel], named: bool, output: &FaceOutput) -> bool
    ensures { result ≡ may_follow labels.now named output.now }
{
    match output {
        FaceOutput::Named(_) => true,
        FaceOutput::Noted(number) => !named && is_verif(labels, *number),
    }
}

// Whether an output has a name.
fn is_name(output: &FaceOutput) -> bool
    ensures { result ≡ is_name output.now }
{
    match output {
        FaceOutput::Named(_) => true,
        FaceOutput::Noted(_) => false,
    }
}

/// The outputs of the longest valid run of `output` and `note` lines at the start, and the bytes
/// after them.
pub fn read_outputs<'a>(
    alloc: Global,
    labels: &[FaceLabel],
    text: &'a [u8],
) -> Result<(Vec<FaceOutput>, &'a [u8]), AllocError>
    ensures { IfOk result (λ r. AreOutputs labels.now text.now r.0.items r.1.now) }
{
    let mut outputs = Vec::new(alloc);
    let mut named = false;
    let mut rest = text;
    loop {
        match next_output(alloc, rest)? {
            None => return Ok((outputs, rest)),
            Some((output, behind)) => {
                if !may_follow(labels, named, &output) {
                    return Ok((outputs, rest));
                }
                named = is_name(&output);
                outputs.push(output)?;
                rest = behind;
            }
        }
    }
}

// A hash key made from all codes, so that codes can't be chosen to collide.
fn key_of(inputs: &[Coded]) -> Key {
    let mut digest = NamesDigest::new();
    for k in 0..inputs.len() {
        digest.take(inputs[k].code.bytes());
    }
    digest.key()
}

/// The index of the first input whose code an earlier input has.
pub fn first_again(alloc: Global, inputs: &[Coded]) -> Result<Option<u32>, AllocError>
    requires { length inputs.now < 4294967296 }
    ensures { IfOk result (λ o. MatchOption o (AreDistinct (codes_of inputs.now)) (λ k. IsAgain (codes_of inputs.now) k)) }
{
    let mut names = Names::under(alloc, key_of(inputs));
    for k in 0..inputs.len() {
        let fresh = names.add(alloc, inputs[k].code.bytes())?;
        if !fresh {
            return Ok(Some(k as u32));
        }
    }
    Ok(None)
}
