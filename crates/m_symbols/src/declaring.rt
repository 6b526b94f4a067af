//! Declarations, processed in order.
ghost use Rattle.std.specs.Prelude.{◌≡◌, ◌<◌, ◌≤◌, ◌^◌, length, false, if◌then◌else◌, ◌∷◌, ◌++◌, None, Some, [], map, IfOk, IfSome};
ghost use Rattle.std.specs.List.{filter_map, cons_option};
ghost use Rattle.m_names.specs.Names.{has};
ghost use Rattle.m_places.specs.Refusals.{Outcome};
ghost use Rattle.m_symbols.specs.Declarations.{declared_by};
ghost use Rattle.m_symbols.specs.Faults.{first_fault, fault_at, variable_fault, error_fault, paired_place, placed_name, placed_code, placed_error};
ghost use Rattle.m_ast.specs.Items.{cells_in, size_in, code_in, is_input};
ghost use Rattle.m_symbols.specs.inner.Tables.{declared_in, AreIndexed, HasRoom, with_variable, with_error, with_item};

use crate::symbols::Tables;
use crate::{DeclareFault, Symbols, Variable};
use m_ast::{ErrorItem, Item, Role, VariableItem};
use m_names::{Key, Names, NamesDigest};
use m_places::Place;
use m_places::limits::{CELLS, TABLE_CELLS};
use std::alloc::{AllocError, Global};

/// What the items of all rule files, in order, declare, or the error of the earliest wrong
/// declaration. Within one declaration the checks are, in order: its name, its code, its size, the
/// count of cells.
///
/// Variables, cells and inputs are numbered in order of declaration, from 0, in 32 bits. Items are
/// fewer than 2^32 in every admissible list of rules, since no file has more items than bytes.
pub fn declare(alloc: Global, items: &[Item]) -> Result<Symbols, DeclareFault>
    requires { length items.now < 2 ^ 32 }
    ensures outcome { Outcome DeclareFault.Memory result
        (λ symbols. (first_fault items.now ≡ None) × (symbols ≡ declared_by items.now))
        (λ fault. first_fault items.now ≡ Some fault) }
{
    let mut tables = no_tables(alloc, key_of(items));
    for item in items {
        declare_item(alloc, item, &mut tables)?;
    }
    Ok(Symbols { tables })
}

// The hash key, derived from all names and codes, so that nobody can choose them to collide.
fn key_of(items: &[Item]) -> Key {
    let mut digest = NamesDigest::new();
    for item in items {
        match item {
            Item::Variable(variable) => {
                digest.take(variable.name.bytes());
                if let Role::Input(code) = &variable.role {
                    digest.take(code.bytes());
                }
            }
            Item::Error(error) => digest.take(error.name.bytes()),
            Item::Rule(_) | Item::Verif(_) | Item::Silent(_) => {}
        }
    }
    digest.key()
}

// Tables without declarations.
fn no_tables(alloc: Global, key: Key) -> Tables
    ensures none { declared_in result ≡ declared_by [] }
    ensures indexed { AreIndexed result }
{
    Tables {
        variables: Vec::new(alloc),
        names: Names::under(alloc, key),
        longest: 0,
        owners: Vec::new(alloc),
        inputs: Vec::new(alloc),
        codes: Names::under(alloc, key),
        errors: Vec::new(alloc),
        error_names: Names::under(alloc, key),
    }
}

// Adds the declaration of one more item.
fn declare_item(alloc: Global, item: &Item, tables: &mut Tables) -> Result<(), DeclareFault>
    requires indexed { AreIndexed tables.old }
    requires room { HasRoom tables.old }
    ensures outcome { Outcome DeclareFault.Memory result
        (λ _. fault_at (declared_in tables.old) item.now ≡ None)
        (λ fault. fault_at (declared_in tables.old) item.now ≡ Some fault) }
    ensures declared { IfOk result (λ _. declared_in tables.new ≡ with_item (declared_in tables.old) item.now) }
    ensures indexed { IfOk result (λ _. AreIndexed tables.new) }
{
    match item {
        Item::Variable(variable) => {
            find_variable_fault(alloc, variable, tables)?;
            add_variable(alloc, variable, tables)?;
            Ok(())
        }
        Item::Error(error) => {
            find_error_fault(alloc, error, tables)?;
            add_error(alloc, error, tables)?;
            Ok(())
        }
        Item::Rule(_) | Item::Verif(_) | Item::Silent(_) => Ok(()),
    }
}

// The fault of a variable, given the earlier declarations.
fn find_variable_fault(
    alloc: Global,
    variable: &VariableItem,
    tables: &Tables,
) -> Result<(), DeclareFault>
    requires { AreIndexed tables.now }
    ensures outcome { Outcome DeclareFault.Memory result
        (λ _. variable_fault (declared_in tables.now) variable.now ≡ None)
        (λ fault. variable_fault (declared_in tables.now) variable.now ≡ Some fault) }
{
    if let Some(earlier) = place_of_name(tables, variable.name.bytes()) {
        let name = variable.name.copy(alloc)?;
        return Err(DeclareFault::DeclaredTwice(name, earlier, variable.place));
    }
    if let Role::Input(code) = &variable.role
        && let Some(earlier) = place_of_code(tables, code.bytes())
    {
        let code = code.copy(alloc)?;
        return Err(DeclareFault::AliasTwice(code, earlier, variable.place));
    }
    if let Role::Computed(Some(size)) = &variable.role
        && (*size == 0 || *size > TABLE_CELLS)
    {
        return Err(DeclareFault::TableSize(variable.place));
    }
    if tables.owners.len() + cells_of(&variable.role) as usize > CELLS as usize {
        return Err(DeclareFault::TooManyCells(variable.place));
    }
    Ok(())
}

// The place of the variable with this name.
fn place_of_name(tables: &Tables, name: &[u8]) -> Option<Place>
    requires { AreIndexed tables.now }
    ensures { result ≡ paired_place name.now (map placed_name tables.now.variables.items) }
{
    let number = tables.names.find(name)?;
    Some(tables.variables[number].item.place)
}

// The place of the input with this code.
fn place_of_code(tables: &Tables, code: &[u8]) -> Option<Place>
    requires { AreIndexed tables.now }
    ensures { result ≡ paired_place code.now (filter_map placed_code tables.now.variables.items) }
{
    let number = tables.codes.find(code)?;
    let variable = tables.inputs[number];
    Some(tables.variables[variable as usize].item.place)
}

// The place of the error item with this name.
fn place_of_error(tables: &Tables, name: &[u8]) -> Option<Place>
    requires { AreIndexed tables.now }
    ensures { result ≡ paired_place name.now (map placed_error tables.now.errors.items) }
{
    let number = tables.error_names.find(name)?;
    Some(tables.errors[number].place)
}

// The number of cells of a variable with this role.
fn cells_of(role: &Role) -> u32
    ensures { result ≡ cells_in (size_in role.now) }
{
    match role {
        Role::Computed(Some(size)) => *size,
        Role::Computed(None) | Role::Input(_) | Role::Constant(_) => 1,
    }
}

// Adds a valid variable.
fn add_variable(
    alloc: Global,
    variable: &VariableItem,
    tables: &mut Tables,
) -> Result<(), AllocError>
    requires indexed { AreIndexed tables.old }
    requires room { HasRoom tables.old }
    requires good { variable_fault (declared_in tables.old) variable.now ≡ None }
    ensures declared { IfOk result (λ _. declared_in tables.new ≡ with_variable (declared_in tables.old) variable.now) }
    ensures indexed { IfOk result (λ _. AreIndexed tables.new) }
{
    let number = tables.names.len() as u32;
    let first_cell = tables.owners.len() as u32;
    let cells = cells_of(&variable.role);
    let item = variable.copy(alloc)?;
    let name = item.name.bytes();
    tables.names.add(alloc, name)?;
    tables.longest = longer(tables.longest, name);
    let codes = &mut tables.codes;
    add_code(alloc, &item.role, number, codes, &mut tables.inputs)?;
    let all_cells = first_cell as usize + cells as usize;
    tables.owners.resize(all_cells, number)?;
    tables.variables.push(Variable {
        item,
        first_cell,
        cells,
    })?;
    Ok(())
}

// A length that isn't less than this one, nor than that of a name.
fn longer(longest: usize, name: &[u8]) -> usize
    ensures as_long { longest ≤ result }
    ensures name { length name.now ≤ result }
{
    longest.max(name.len())
}

// Adds the code of a variable, if it is an input.
fn add_code(
    alloc: Global,
    role: &Role,
    number: u32,
    codes: &mut Names,
    inputs: &mut Vec<u32>,
) -> Result<(), AllocError>
    requires { IfSome (code_in role.now) (λ code. has code codes.old ≡ false) }
    ensures codes { IfOk result (λ _. codes.new ≡ codes.old ++ cons_option (code_in role.now) []) }
    ensures inputs { IfOk result (λ _. inputs.new.items ≡ inputs.old.items ++ (if is_input role.now then number ∷ [] else [])) }
{
    if let Role::Input(code) = role {
        codes.add(alloc, code.bytes())?;
        inputs.push(number)?;
    }
    Ok(())
}

// The fault of an error item, given the earlier declarations.
fn find_error_fault(alloc: Global, error: &ErrorItem, tables: &Tables) -> Result<(), DeclareFault>
    requires { AreIndexed tables.now }
    ensures outcome { Outcome DeclareFault.Memory result
        (λ _. error_fault (declared_in tables.now) error.now ≡ None)
        (λ fault. error_fault (declared_in tables.now) error.now ≡ Some fault) }
{
    if let Some(earlier) = place_of_error(tables, error.name.bytes()) {
        let name = error.name.copy(alloc)?;
        return Err(DeclareFault::DeclaredTwice(name, earlier, error.place));
    }
    Ok(())
}

// Adds a valid error item.
fn add_error(alloc: Global, error: &ErrorItem, tables: &mut Tables) -> Result<(), AllocError>
    requires indexed { AreIndexed tables.old }
    requires room { HasRoom tables.old }
    requires good { error_fault (declared_in tables.old) error.now ≡ None }
    ensures declared { IfOk result (λ _. declared_in tables.new ≡ with_error (declared_in tables.old) error.now) }
    ensures indexed { IfOk result (λ _. AreIndexed tables.new) }
{
    tables.error_names.add(alloc, error.name.bytes())?;
    tables.errors.push(error.copy(alloc)?)?;
    Ok(())
}
