//! The environment at the start.

ghost use Rattle.std.specs.Prelude.{◌≡◌, ◌++◌, [], IfOk, OnOk, replicate};
ghost use Rattle.m_ast.specs.Items.{is_input};
ghost use Rattle.why_report.specs.Starts.{input_cells, start_env, start_value};

use m_ast::Role;
use m_fixed::Value;
use m_symbols::Symbols;
use std::alloc::{AllocError, Global};

/// The initial values of all variables' cells, with all inputs undefined.
pub(crate) fn start_env(alloc: Global, symbols: &Symbols) -> Result<Vec<Value>, AllocError>
    ensures { IfOk result (λ env. env.items ≡ start_env symbols.now []) }
{
    let mut env = Vec::with_capacity(alloc, symbols.cells() as usize)?;
    for number in 0..symbols.count() {
        let variable = symbols.variable(number);
        add_values(start_value(&variable.item.role), variable.cells, &mut env)?;
    }
    Ok(env)
}

/// The cells of the inputs.
pub(crate) fn input_cells(alloc: Global, symbols: &Symbols) -> Result<Vec<u32>, AllocError>
    ensures { IfOk result (λ cells. cells.items ≡ input_cells symbols.now) }
{
    let mut cells = Vec::new(alloc);
    for number in 0..symbols.count() {
        let variable = symbols.variable(number);
        if is_input(&variable.item.role) {
            cells.push(variable.first_cell)?;
        }
    }
    Ok(cells)
}

// The initial value of a variable's cells, with all inputs undefined.
fn start_value(role: &Role) -> Value
    ensures { result ≡ start_value [] 0 role.now }
{
    match role {
        Role::Input(_) => Value::Undef,
        Role::Computed(_) => Value::Undef,
        Role::Constant(amount) => Value::Num(*amount),
    }
}

fn is_input(role: &Role) -> bool
    ensures { result ≡ is_input role.now }
{
    match role {
        Role::Input(_) => true,
        Role::Computed(_) => false,
        Role::Constant(_) => false,
    }
}

// Appends `count` copies of a value.
fn add_values(value: Value, count: u32, values: &mut Vec<Value>) -> Result<(), AllocError>
    ensures { OnOk result (values.new.items ≡ values.old.items ++ replicate count value) }
{
    let size = values.len() + count as usize;
    values.resize(size, value)?;
    Ok(())
}
