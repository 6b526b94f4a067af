//! The start and the end of the program: literals, inputs and initial values, and the outputs.

ghost use Rattle.std.specs.Prelude.{◌≡◌, ◌<◌, ◌≤◌, ◌+◌, ◌*◌, ◌^◌, [], ◌∷◌, ◌++◌, pos, IfOk, OnOk, length, map, replicate, slice_index_or, if◌then◌else◌};
ghost use Rattle.m_fixed.specs.declared.amount.Value.TheVariants.{Undef, Num};
ghost use Rattle.observables.specs.declared.face.FaceLabel.TheVariants.{Verif};
ghost use Rattle.m_ast.specs.Items.{cells_in, size_in, is_input};
ghost use Rattle.m_symbols.specs.Declarations.{owners_from, placed_from};
ghost use Rattle.driver_core.specs.Answers.{next_input};
ghost use Rattle.driver_core.specs.Inputs.{type_declared};
ghost use Rattle.mpp_inline.specs.inner.Growth.{Sane, Gives, Begun, HasLiterals, HasInput, InputIsThere};
ghost use Rattle.mpp_inline.specs.inner.Growth.{IsAnInput, typed_value, begun_value, begun_from, kinds_from};
ghost use Rattle.mpp_inline.specs.inner.Observation.{nodes_of, numbers_of};
ghost use Rattle.mpp_inline.specs.inner.Sizes.{load};

use crate::builder::{Builder, UNDEF};
use crate::cells::look;
use flat_code::Node;
use m_ast::{Role, VariableItem};
use m_fixed::{Amount, Op, Value};
use m_places::{Label, Seq};
use m_symbols::Symbols;
use micro_m::Base;
use observables::{FaceLabel, InputType, type_of};
use std::alloc::{AllocError, Global};

/// The three literals, and the labels of the rules.
pub fn first_nodes(
    alloc: Global,
    inputs: Seq<InputType>,
    base: &Base,
) -> Result<Builder, AllocError>
    requires { 3 + length base.now.labels < 2 ^ 32 }
    ensures literals { IfOk result (HasLiterals base.now.labels) }
    ensures inputs { IfOk result (λ b. b.inputs ≡ inputs) }
    ensures size { IfOk result (λ b. load b ≡ 3 + length base.now.labels) }
{
    let mut b = Builder {
        inputs,
        nodes: Vec::new(alloc),
        checks: Vec::new(alloc),
        labels: first_labels(alloc, base.labels.as_slice())?,
        notes: Vec::new(alloc),
    };
    b.push(Node::Lit(Value::Undef))?;
    b.push(Node::Lit(Value::Num(Amount::zero())))?;
    b.push(Node::Lit(one()))?;
    Ok(b)
}

/// The types of the inputs, in order.
pub fn input_types(alloc: Global, symbols: &Symbols) -> Result<Seq<InputType>, AllocError>
    ensures { IfOk result (λ kinds. kinds ≡ kinds_from symbols.now.variables) }
{
    let mut kinds = Vec::new(alloc);
    for v in 0..symbols.count() {
        add_type(&mut kinds, &symbols.variable(v).item)?;
    }
    Ok(Seq::from_vec(kinds))
}

/// Appends the type of a variable if it is an input.
fn add_type(kinds: &mut Vec<InputType>, item: &VariableItem) -> Result<(), AllocError>
    ensures { OnOk result (kinds.new.items ≡ kinds.old.items
        ++ (if is_input item.now.role then type_declared item.now.value_word ∷ [] else [])) }
{
    match &item.role {
        Role::Input(_) => kinds.push(kind_of(item))?,
        Role::Computed(_) => {}
        Role::Constant(_) => {}
    }
    Ok(())
}

/// The number 1.
fn one() -> Value
    ensures { result ≡ Num (pos 1000000) }
{
    match Amount::new(1_000_000) {
        Some(amount) => Value::Num(amount),
        None => Value::Undef,
    }
}

/// The labels of the rules, in order.
fn first_labels(alloc: Global, labels: &[Label]) -> Result<Vec<FaceLabel>, AllocError>
    ensures { IfOk result (λ faces. faces.items ≡ map Verif labels.now) }
{
    let mut faces = Vec::new(alloc);
    for label in labels {
        faces.push(FaceLabel::Verif(equal_label(alloc, label)?))?;
    }
    Ok(faces)
}

/// A copy of a label that shares its strings.
fn equal_label(alloc: Global, label: &Label) -> Result<Label, AllocError>
    ensures { IfOk result (λ equal. equal ≡ label.now) }
{
    let verif = label.verif.share(alloc)?;
    let error = label.error.share(alloc)?;
    let text = label.text.share(alloc)?;
    Ok(Label {
        verif,
        error,
        kind: label.kind,
        text,
    })
}

/// A node for each cell, with the cell's initial value.
pub fn first_cells(
    alloc: Global,
    b: &mut Builder,
    symbols: &Symbols,
) -> Result<Vec<u32>, AllocError>
    requires inputs { b.old.inputs ≡ kinds_from symbols.now.variables }
    requires placed { symbols.now.variables ≡ placed_from 0 (map (λ v. v.item) symbols.now.variables) }
    requires room { load b.old + 2 * length (owners_from 0 symbols.now.variables) < 2 ^ 32 }
    ensures step { IfOk result (λ env. Sane b.old
        → Begun b.old b.new (λ inputs. begun_from inputs 0 symbols.now.variables) env.items) }
    ensures size { OnOk result (load b.new ≤ load b.old + 2 * length (owners_from 0 symbols.now.variables)) }
{
    let inputs = symbols.inputs();
    let mut env = Vec::new(alloc);
    let mut next = 0;
    for v in 0..symbols.count() {
        let variable = symbols.variable(v);
        let number = first_node(b, &variable.item, next)?;
        next = input_behind(&variable.item.role, next, inputs);
        add_cells(&mut env, variable.cells, number)?;
    }
    Ok(env)
}

/// The node of a variable's initial value; `next` is the number of the next input.
fn first_node(b: &mut Builder, item: &VariableItem, next: u32) -> Result<u32, AllocError>
    requires { load b.old + 2 * cells_in (size_in item.now.role) < 2 ^ 32 }
    ensures step { IfOk result (λ k. Sane b.old → InputIsThere b.old.inputs next (type_declared item.now.value_word) item.now.role
        → Gives b.old b.new (λ inputs. begun_value inputs next item.now) k) }
    ensures size { OnOk result (load b.new ≤ load b.old + 2 * cells_in (size_in item.now.role)) }
{
    match &item.role {
        Role::Input(_) => input_node(b, kind_of(item), next),
        Role::Computed(_) => Ok(UNDEF),
        Role::Constant(amount) => b.push(Node::Lit(Value::Num(*amount))),
    }
}

/// The node of an input. For type `Truth` it is the `And` of the input with itself, which is
/// undefined, 0 or 1 for any value of the input; nothing else reads such an input.
fn input_node(b: &mut Builder, kind: InputType, next: u32) -> Result<u32, AllocError>
    requires { load b.old + 2 < 2 ^ 32 }
    ensures step { IfOk result (λ k. Sane b.old → HasInput b.old.inputs next kind
        → Gives b.old b.new (λ inputs. typed_value kind (slice_index_or inputs next Undef)) k) }
    ensures size { OnOk result (load b.new ≤ load b.old + 2) }
{
    let input = b.push(Node::Input(next))?;
    match kind {
        InputType::Any => Ok(input),
        InputType::Whole => Ok(input),
        InputType::Truth => b.push(Node::Do(Op::And, input, input, input)),
    }
}

/// The declared type.
fn kind_of(item: &VariableItem) -> InputType
    ensures { result ≡ type_declared item.now.value_word }
{
    match &item.value_word {
        Some(word) => type_of(word.bytes()),
        None => InputType::Any,
    }
}

/// The number of the next input after this variable, at most the number of inputs.
fn input_behind(role: &Role, next: u32, inputs: u32) -> u32
    ensures { IsAnInput inputs next role.now → result ≡ next_input next role.now }
{
    match role {
        Role::Input(_) => { if next < inputs { next + 1 } else { next } }
        Role::Computed(_) => next,
        Role::Constant(_) => next,
    }
}

/// Appends this number of cells, all with this node.
fn add_cells(env: &mut Vec<u32>, cells: u32, number: u32) -> Result<(), AllocError>
    ensures { OnOk result (env.new.items ≡ env.old.items ++ replicate cells number) }
{
    let mut left = cells;
    while left > 0 {
        env.push(number)?;
        left -= 1;
    }
    Ok(())
}

/// The nodes of the notes, followed by those of the requested cells.
pub fn outputs_of(
    alloc: Global,
    notes: &[(u32, u32)],
    env: &[u32],
    requests: &[u32],
) -> Result<Vec<u32>, AllocError>
    ensures { IfOk result (λ outputs. outputs.items
        ≡ nodes_of notes.now ++ map (λ x. slice_index_or env.now x 0) requests.now) }
{
    let mut outputs = nodes_of(alloc, notes)?;
    add_outputs(&mut outputs, env, requests)?;
    Ok(outputs)
}

/// The nodes of notes.
fn nodes_of(alloc: Global, notes: &[(u32, u32)]) -> Result<Vec<u32>, AllocError>
    ensures { IfOk result (λ nodes. nodes.items ≡ nodes_of notes.now) }
{
    let mut nodes = Vec::new(alloc);
    for (node, _) in notes {
        nodes.push(*node)?;
    }
    Ok(nodes)
}

/// The label numbers of notes.
pub fn numbers_of(alloc: Global, notes: &[(u32, u32)]) -> Result<Vec<u32>, AllocError>
    ensures { IfOk result (λ numbers. numbers.items ≡ numbers_of notes.now) }
{
    let mut numbers = Vec::new(alloc);
    for (_, number) in notes {
        numbers.push(*number)?;
    }
    Ok(numbers)
}

/// Appends the nodes of the requested cells.
fn add_outputs(outputs: &mut Vec<u32>, env: &[u32], requests: &[u32]) -> Result<(), AllocError>
    ensures { OnOk result (outputs.new.items
        ≡ outputs.old.items ++ map (λ x. slice_index_or env.now x 0) requests.now) }
{
    for cell in requests {
        outputs.push(look(env, *cell as usize))?;
    }
    Ok(())
}
