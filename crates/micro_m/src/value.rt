//! Evaluation of terms and checks, given the values of the cells.

ghost use Rattle.std.specs.Prelude.{◌≡◌, slice_index_or};
ghost use Rattle.m_fixed.specs.declared.amount.Value.TheVariants.{Undef};
ghost use Rattle.micro_m.specs.Views.{trees_of, steps_of};
ghost use Rattle.micro_m.specs.Values.{environment, term_value, argument_values, folded, applied, picked_value};
ghost use Rattle.micro_m.specs.Failures.{is_stopping, kind_at, failure_of, failure_among};

use crate::table::{Picked, pick};
use crate::{Base, Failure, MNode, MTerm, Step};
use m_fixed::{Op, Value, apply};
use m_places::{ErrorKind, Label};

/// The value of a term, given the value of each cell by its number; a cell beyond them is
/// undefined. If the cells 0 and 1 are 10 and 4, cell 0 minus cell 1 is 6. Takes no memory.
#[cycle(value)]
pub fn term_value(term: &MTerm, values: &[Value]) -> Value
    ensures { result ≡ term_value (environment values.now) term.now }
{
    match &term.node {
        MNode::Lit(value) => *value,
        MNode::Cell(cell) => value_at(values, *cell as usize),
        MNode::Pick(first, size, index) => {
            picked_value(pick(*first, *size, term_value(index, values)), values)
        }
        MNode::Apply(op, arguments) => applied(*op, arguments, values),
        MNode::Chain(first, steps) => folded(term_value(first, values), steps, values),
    }
}

/// An operator on its arguments. Missing arguments are undefined.
#[cycle(value)]
fn applied(op: Op, arguments: &[MTerm], values: &[Value]) -> Value
    ensures { result ≡ applied op (argument_values (environment values.now) (trees_of arguments.now)) }
{
    let first = argument_value(arguments, 0, values);
    let second = argument_value(arguments, 1, values);
    let third = argument_value(arguments, 2, values);
    apply(op, first, second, third)
}

/// The value of the argument at this index; undefined if it is missing.
#[cycle(value)]
fn argument_value(arguments: &[MTerm], at: usize, values: &[Value]) -> Value
    ensures { result ≡ slice_index_or (argument_values (environment values.now) (trees_of arguments.now)) at Undef }
{
    match arguments.get(at) {
        Some(argument) => term_value(argument, values),
        None => Value::Undef,
    }
}

/// A left fold from a start value.
#[cycle(value)]
fn folded(so_far: Value, steps: &[Step], values: &[Value]) -> Value
    ensures { result ≡ folded (environment values.now) so_far (steps_of steps.now) }
{
    let mut value = so_far;
    for step in steps {
        value = apply(step.op, value, term_value(&step.term, values), Value::Undef);
    }
    value
}

/// The value of a cell; undefined beyond the last.
pub(crate) fn value_at(values: &[Value], cell: usize) -> Value
    ensures { result ≡ environment values.now cell }
{
    match values.get(cell) {
        Some(value) => *value,
        None => Value::Undef,
    }
}

fn picked_value(picked: Picked, values: &[Value]) -> Value
    ensures { result ≡ picked_value (environment values.now) picked }
{
    match picked {
        Picked::Cell(cell) => value_at(values, cell),
        Picked::Fixed(value) => value,
    }
}

/// The first check of a base, in the order of the source, that stops a run, given the values of the
/// cells: its condition is over, or its condition is a number other than 0 and its error is an
/// `anomalie`. Takes no memory.
pub fn first_failing(base: &Base, values: &[Value]) -> Option<Failure>
    ensures { result ≡ failure_among base.now.labels (environment values.now) base.now.checks }
{
    for (condition, label, _) in base.checks.as_slice() {
        let kind = kind_at(base.labels.as_slice(), *label);
        if let Some(failure) = failure_of(term_value(condition, values), kind, *label) {
            return Some(failure);
        }
    }
    None
}

/// The failure of a check, from its condition's value and its error's kind: a number other than 0
/// fails if the kind stops a run; over always does.
fn failure_of(condition: Value, kind: ErrorKind, label: u32) -> Option<Failure>
    ensures { result ≡ failure_of condition kind label }
{
    match condition {
        Value::Undef => None,
        Value::Over => Some(Failure::Over(label)),
        Value::Num(amount) => {
            if amount.millionths() != 0 && is_stopping(kind) {
                Some(Failure::Failed(label))
            } else {
                None
            }
        }
    }
}

/// The kind of the error of the label with this number. A number without a label counts as
/// `anomalie`.
pub fn kind_at(labels: &[Label], number: u32) -> ErrorKind
    ensures { result ≡ kind_at labels.now number }
{
    match labels.get(number as usize) {
        Some(label) => label.kind,
        None => ErrorKind::Anomalie,
    }
}

/// Whether an error of this kind stops a run. Errors of other kinds are noted, and the run
/// continues.
pub fn is_stopping(kind: ErrorKind) -> bool
    ensures { result ≡ is_stopping kind }
{
    match kind {
        ErrorKind::Anomalie => true,
        ErrorKind::Discordance => false,
        ErrorKind::Informative => false,
    }
}
