//! A direct evaluator of the definition of a cell's value, for tests on small bases.

ghost use Rattle.std.specs.Prelude.{◌≡◌, slice_index_or, option_copied};
ghost use Rattle.m_fixed.specs.declared.amount.Value.TheVariants.{Undef};
ghost use Rattle.micro_m.specs.Bases.{definition_of};
ghost use Rattle.micro_m.specs.Views.{trees_of, steps_of};
ghost use Rattle.micro_m.specs.Values.{environment, term_value, argument_values, folded, applied, picked_value, value_in};

use crate::table::{Picked, pick};
use crate::value::value_at;
use crate::{Base, MNode, MTerm, Step};
use m_fixed::{Op, Value, apply};

/// The value of a cell by recursion at most `turns` deep: undefined for 0 turns; the environment's
/// value for a cell without a definition; otherwise the value of its term, whose cells are
/// evaluated with one turn less. If the base has no cycle, one turn more than there are definitions
/// gives the cell's value.
///
/// Each read evaluates the cell again, so the time may be exponential. Takes no memory.
pub fn slow_value(base: &Base, env: &[Value], cell: u32, turns: u32) -> Value
    ensures { result ≡ value_in base.now (environment env.now) turns cell }
{
    slow_cell(base, env, cell as usize, turns)
}

#[cycle(slow)]
fn slow_cell(base: &Base, env: &[Value], cell: usize, turns: u32) -> Value
    ensures { result ≡ value_in base.now (environment env.now) turns cell }
{
    if turns == 0 {
        return Value::Undef;
    }
    match definition_of(base, cell) {
        Some(term) => slow_term(base, env, term, turns - 1),
        None => value_at(env, cell),
    }
}

/// The term that defines a cell, if it has a definition.
fn definition_of(base: &Base, cell: usize) -> Option<&MTerm>
    ensures { option_copied result ≡ definition_of base.now cell }
{
    for definition in base.definitions.as_slice() {
        if cell == definition.0 as usize {
            return Some(&definition.1);
        }
    }
    None
}

/// The value of a term whose cells are evaluated with this many turns.
#[cycle(slow)]
fn slow_term(base: &Base, env: &[Value], term: &MTerm, turns: u32) -> Value
    ensures { result ≡ term_value (value_in base.now (environment env.now) turns) term.now }
{
    match &term.node {
        MNode::Lit(value) => *value,
        MNode::Cell(cell) => slow_cell(base, env, *cell as usize, turns),
        MNode::Pick(first, size, index) => {
            match pick(*first, *size, slow_term(base, env, index, turns)) {
                Picked::Cell(cell) => slow_cell(base, env, cell, turns),
                Picked::Fixed(value) => value,
            }
        }
        MNode::Apply(op, arguments) => apply(
            *op,
            slow_argument(base, env, arguments, 0, turns),
            slow_argument(base, env, arguments, 1, turns),
            slow_argument(base, env, arguments, 2, turns),
        ),
        MNode::Chain(first, steps) => {
            let so_far = slow_term(base, env, first, turns);
            slow_fold(base, env, so_far, steps, turns)
        }
    }
}

/// The value of the argument at this index; undefined if it is missing.
#[cycle(slow)]
fn slow_argument(base: &Base, env: &[Value], arguments: &[MTerm], at: usize, turns: u32) -> Value
    ensures { result ≡ slice_index_or (argument_values (value_in base.now (environment env.now) turns) (trees_of arguments.now)) at Undef }
{
    match arguments.get(at) {
        Some(argument) => slow_term(base, env, argument, turns),
        None => Value::Undef,
    }
}

/// A left fold from a start value.
#[cycle(slow)]
fn slow_fold(base: &Base, env: &[Value], so_far: Value, steps: &[Step], turns: u32) -> Value
    ensures { result ≡ folded (value_in base.now (environment env.now) turns) so_far (steps_of steps.now) }
{
    let mut value = so_far;
    for step in steps {
        value = apply(
            step.op,
            value,
            slow_term(base, env, &step.term, turns),
            Value::Undef,
        );
    }
    value
}
