//! The values that cells start with.
ghost use Rattle.std.specs.Prelude.{◌≡◌, ◌<◌, ◌++◌, IfOk, OnOk, replicate};
ghost use Rattle.driver_core.specs.Answers.{first_value, next_input, start_of};

use m_ast::Role;
use m_fixed::Value;
use m_symbols::Symbols;
use std::alloc::{AllocError, Global};

/// The start value of each cell, for these values of the inputs: an input has its value, a constant its amount, and
/// each other cell is undefined. The only error is out of memory.
pub(crate) fn first_cells(
    alloc: Global,
    symbols: &Symbols,
    inputs: &[Value],
) -> Result<Vec<Value>, AllocError>
    ensures { IfOk result (λ env. env.items ≡ start_of symbols.now inputs.now) }
{
    let mut env = Vec::new(alloc);
    let mut next = 0;
    for number in 0..symbols.count() {
        let variable = symbols.variable(number);
        let value = first_value(&variable.item.role, inputs, next);
        next = next_input(&variable.item.role, next);
        add_cells(&mut env, variable.cells, &value)?;
    }
    Ok(env)
}

// The start value of a variable, where `next` is the number of the next input.
fn first_value(role: &Role, inputs: &[Value], next: usize) -> Value
    ensures { result ≡ first_value inputs.now next role.now }
{
    match role {
        Role::Input(_) => match inputs.get(next) {
            Some(value) => *value,
            None => Value::Undef,
        },
        Role::Computed(_) => Value::Undef,
        Role::Constant(amount) => Value::Num(*amount),
    }
}

// The number of the input after a variable.
fn next_input(role: &Role, next: usize) -> usize
    requires { next < 4_294_967_296 }
    ensures { result ≡ next_input next role.now }
{
    match role {
        Role::Input(_) => next + 1,
        Role::Computed(_) => next,
        Role::Constant(_) => next,
    }
}

// Adds this many cells with this value.
fn add_cells(env: &mut Vec<Value>, cells: u32, value: &Value) -> Result<(), AllocError>
    ensures { OnOk result (env.new.items ≡ env.old.items ++ replicate cells value.now) }
{
    let mut left = cells;
    while left > 0 {
        env.push(*value)?;
        left -= 1;
    }
    Ok(())
}
