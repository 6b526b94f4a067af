//! Faces of programs.

ghost use Rattle.std.specs.Prelude.{◌≡◌, ◌<◌, ◌++◌, [], All, IfOk, OnOk, IsTrue, is_some, length, map};
ghost use Rattle.std.specs.List.{AllByRecursion, cons_option};
ghost use Rattle.m_symbols.specs.Cells.{cell_name};
ghost use Rattle.m_symbols.specs.Declarations.{owners_from};
ghost use Rattle.observables.specs.declared.face.FaceOutput.TheVariants.{Named, Noted};
ghost use Rattle.observables.specs.Outputs.{verif_at};
ghost use Rattle.driver_core.specs.Inputs.{input_declared, inputs_declared, type_declared};

use m_ast::Role;
use m_places::{Name, Seq};
use m_symbols::{Symbols, Variable, cell_names};
use observables::{Coded, Face, FaceLabel, FaceOutput, InputType, type_of};
use std::alloc::{AllocError, Global};

/// The face of a program with these labels: all declared inputs; the labels; and as outputs the
/// notes, by the numbers of their labels, then the names of the requested cells. Its only error is
/// running out of memory.
pub(crate) fn face_of(
    alloc: Global,
    symbols: &Symbols,
    labels: Seq<FaceLabel>,
    notes: &[u32],
    requests: &[u32],
) -> Result<Face, AllocError>
    requires known { All (λ c. c < length (owners_from 0 symbols.now.variables)) requests.now }
    requires noted { AllByRecursion (λ n. IsTrue (is_some (verif_at labels n))) notes.now }
    ensures inputs { IfOk result (λ face. face.inputs ≡ inputs_declared symbols.now) }
    ensures labels { IfOk result (λ face. face.labels ≡ labels) }
    ensures outputs { IfOk result (λ face. face.outputs ≡ map Noted notes.now ++ map Named (map (cell_name symbols.now) requests.now)) }
{
    let inputs = inputs_of(alloc, symbols)?;
    let outputs = outputs_of(alloc, symbols, notes, requests)?;
    Ok(Face {
        inputs,
        labels,
        outputs,
    })
}

/// The declared inputs, in order: those of the face of any program over these declarations. Its
/// only error is running out of memory.
pub fn inputs_of(alloc: Global, symbols: &Symbols) -> Result<Seq<Coded>, AllocError>
    ensures { IfOk result (λ inputs. inputs ≡ inputs_declared symbols.now) }
{
    let mut inputs = Vec::new(alloc);
    for number in 0..symbols.count() {
        add_input(alloc, symbols.variable(number), &mut inputs)?;
    }
    Ok(Seq::from_vec(inputs))
}

// Adds a variable, if it is an input.
fn add_input(alloc: Global, variable: &Variable, inputs: &mut Vec<Coded>) -> Result<(), AllocError>
    ensures { OnOk result (inputs.new.items ≡ inputs.old.items ++ cons_option (input_declared variable.now) []) }
{
    match &variable.item.role {
        Role::Input(code) => inputs.push(Coded {
            code: code.copy(alloc)?,
            kind: type_declared(&variable.item.value_word),
        })?,
        Role::Computed(_) => {}
        Role::Constant(_) => {}
    }
    Ok(())
}

// The type of an input for the word after `type`. Without the word it is any amount.
fn type_declared(word: &Option<Name>) -> InputType
    ensures { result ≡ type_declared word.now }
{
    match word {
        Some(word) => type_of(word.bytes()),
        None => InputType::Any,
    }
}

// The outputs: the notes, then the names of the requested cells.
fn outputs_of(
    alloc: Global,
    symbols: &Symbols,
    notes: &[u32],
    requests: &[u32],
) -> Result<Seq<FaceOutput>, AllocError>
    requires { All (λ c. c < length (owners_from 0 symbols.now.variables)) requests.now }
    ensures { IfOk result (λ outputs. outputs ≡ map Noted notes.now ++ map Named (map (cell_name symbols.now) requests.now)) }
{
    let names = cell_names(alloc, symbols, requests)?;
    let mut outputs = noted(alloc, notes)?;
    add_names(names, &mut outputs)?;
    Ok(Seq::from_vec(outputs))
}

// One output for each note, in order.
fn noted(alloc: Global, notes: &[u32]) -> Result<Vec<FaceOutput>, AllocError>
    ensures { IfOk result (λ outputs. outputs.items ≡ map Noted notes.now) }
{
    let mut outputs = Vec::new(alloc);
    for number in notes {
        outputs.push(FaceOutput::Noted(*number))?;
    }
    Ok(outputs)
}

// Adds one output for each name, in order.
fn add_names(names: Seq<Name>, outputs: &mut Vec<FaceOutput>) -> Result<(), AllocError>
    ensures { OnOk result (outputs.new.items ≡ outputs.old.items ++ map Named names) }
{
    for name in names.into_vec() {
        outputs.push(FaceOutput::Named(name))?;
    }
    Ok(())
}
