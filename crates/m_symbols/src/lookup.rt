//! Look-ups. None takes memory.
ghost use Rattle.std.specs.Prelude.{◌≡◌, ◌<◌, ◌≤◌, All, Some, length, slice_get, slice_index, IfSome};
ghost use Rattle.std.specs.List.{list_any};
ghost use Rattle.std.specs.Ordering.{int_eq};
ghost use Rattle.m_names.specs.Names.{index_of};
ghost use Rattle.m_symbols.specs.Declarations.{names_of, error_names_of, codes_of, owners_from, inputs_from};
ghost use Rattle.m_symbols.specs.Kinds.{is_in_kind, last_value};

use crate::{Symbols, Variable};
use m_ast::{ErrorItem, Role};
use m_fixed::Amount;
use m_places::Name;

impl Symbols {
    /// The count of variables.
    pub fn count(&self) -> u32
        ensures { result ≡ length self.now.variables }
    {
        self.tables.names.len() as u32
    }

    /// The variable with this number, which must be below the count.
    pub fn variable(&self, v: u32) -> &Variable
        requires { v < length self.now.variables }
        ensures { slice_get self.now.variables v ≡ Some result.now }
    {
        &self.tables.variables[v as usize]
    }

    /// The number of the variable with this name.
    pub fn find(&self, name: &[u8]) -> Option<u32>
        ensures number { result ≡ index_of name.now (names_of self.now.variables) }
        ensures within { IfSome result (λ v. v < length self.now.variables) }
    {
        self.tables.names.number(name)
    }

    /// No name of a variable has more bytes: the length of the longest one, or 0.
    pub fn longest(&self) -> usize
        ensures { All (λ v. length v.item.name ≤ result) self.now.variables }
    {
        self.tables.longest
    }

    /// The count of cells.
    pub fn cells(&self) -> u32
        ensures { result ≡ length (owners_from 0 self.now.variables) }
    {
        self.tables.owners.len() as u32
    }

    /// The number of the variable of this cell, which must be below the count of cells.
    pub fn owner(&self, cell: u32) -> u32
        requires { cell < length (owners_from 0 self.now.variables) }
        ensures owner { result ≡ slice_index (owners_from 0 self.now.variables) cell }
        ensures within { result < length self.now.variables }
    {
        self.tables.owners[cell as usize]
    }

    /// The count of inputs.
    pub fn inputs(&self) -> u32
        ensures { result ≡ length (inputs_from 0 self.now.variables) }
    {
        self.tables.codes.len() as u32
    }

    /// The number of the variable of this input, which must be below the count of inputs.
    pub fn input(&self, n: u32) -> u32
        requires { n < length (inputs_from 0 self.now.variables) }
        ensures input { result ≡ slice_index (inputs_from 0 self.now.variables) n }
        ensures within { result < length self.now.variables }
    {
        self.tables.inputs[n as usize]
    }

    /// The number of the input with this code.
    pub fn by_alias(&self, code: &[u8]) -> Option<u32>
        ensures number { result ≡ index_of code.now (codes_of self.now.variables) }
        ensures within { IfSome result (λ n. n < length (inputs_from 0 self.now.variables)) }
    {
        self.tables.codes.number(code)
    }

    /// Whether the variable with this number, which must be below the count, is an input whose last
    /// pair with this attribute has one of these values: `avfisc = 1` and the values 1 and 2, for
    /// example.
    pub fn in_kind(&self, v: u32, attribute: &[u8], values: &[Amount]) -> bool
        requires { v < length self.now.variables }
        ensures { result ≡ is_in_kind (slice_get self.now.variables v) attribute.now values.now }
    {
        let item = &self.variable(v).item;
        if !matches!(&item.role, Role::Input(_)) {
            return false;
        }
        match last_value(item.pairs.as_slice(), attribute) {
            Some(value) => has_amount(values, value),
            None => false,
        }
    }

    /// The count of errors.
    pub fn errors(&self) -> u32
        ensures { result ≡ length self.now.errors }
    {
        self.tables.error_names.len() as u32
    }

    /// The error with this number, which must be below the count.
    pub fn error(&self, e: u32) -> &ErrorItem
        requires { e < length self.now.errors }
        ensures { slice_get self.now.errors e ≡ Some result.now }
    {
        &self.tables.errors[e as usize]
    }

    /// The number of the error with this name.
    pub fn find_error(&self, name: &[u8]) -> Option<u32>
        ensures number { result ≡ index_of name.now (error_names_of self.now.errors) }
        ensures within { IfSome result (λ e. e < length self.now.errors) }
    {
        self.tables.error_names.number(name)
    }
}

// The value of the last pair with this attribute.
fn last_value(pairs: &[(Name, Amount)], attribute: &[u8]) -> Option<Amount>
    ensures { result ≡ last_value attribute.now pairs.now }
{
    let mut last = None;
    for (name, value) in pairs {
        if attribute == name.bytes() {
            last = Some(*value);
        }
    }
    last
}

// Whether an amount is in a list.
fn has_amount(amounts: &[Amount], value: Amount) -> bool
    ensures { result ≡ list_any (int_eq value) amounts.now }
{
    for amount in amounts {
        if value.millionths() == amount.millionths() {
            return true;
        }
    }
    false
}
