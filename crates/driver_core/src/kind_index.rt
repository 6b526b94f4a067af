//! Cells by attribute and value.

ghost use Rattle.std.specs.Prelude.{◌≡◌, ℕ, ℤ, List, [], ◌∷◌, ◌++◌, ◌&&◌, ◌||◌, not, false, IfOk, OnOk, if◌then◌else◌};
ghost use Rattle.std.specs.Str.{bytes_eq};
ghost use Rattle.std.specs.Ordering.{int_eq, is_eq};
ghost use Rattle.std.specs.BTreeMap.{get};
ghost use Rattle.m_names.specs.Names.{has};
ghost use Rattle.m_symbols.specs.Kinds.{last_value, is_one_of};
ghost use Rattle.driver_core.specs.Groups.{group_in, key_order, cells_of};
ghost use Rattle.driver_core.specs.Kinds.{of_kind, cells_with, IsIndexOf};
ghost use Rattle.driver_core.specs.inner.Numbers.{IsNumbered, HasNumber};

use m_ast::Role;
use m_fixed::Amount;
use m_names::{Key, Names, NamesDigest};
use m_places::Name;
use m_symbols::{Symbols, Variable};
use std::alloc::{AllocError, Global};
use std::collections::BTreeMap;

/// Cells of inputs by the number of an attribute and its value. A cell is listed once for each
/// attribute of its input.
#[derive(Drop)]
pub struct KindIndex {
    pub(crate) attributes: Names,
    pub(crate) groups: BTreeMap<(usize, i128), Vec<u32>>,
}

impl KindIndex {
    /// The cells of all declared inputs, by attribute and value.
    pub fn of(alloc: Global, symbols: &Symbols) -> Result<KindIndex, AllocError>
        ensures { IfOk result (λ index. IsIndexOf symbols.now.variables index) }
    {
        let key = key_of(symbols);
        let mut index = KindIndex {
            attributes: Names::under(alloc, key),
            groups: BTreeMap::new(alloc),
        };
        for v in 0..symbols.count() {
            index.add_variable(alloc, key, symbols.variable(v))?;
        }
        Ok(index)
    }

    // Adds the cell of a variable, if it is an input, under each of its attributes.
    fn add_variable(
        &mut self,
        alloc: Global,
        key: Key,
        variable: &Variable,
    ) -> Result<(), AllocError>
        requires { IsNumbered self.old }
        ensures added { OnOk result ((a : List ℕ) (v : ℤ)
            → group_in self.new a v ≡ group_in self.old a v ++ of_kind a (v ∷ []) variable.now) }
        ensures numbered { OnOk result (IsNumbered self.new) }
    {
        if let Role::Input(_) = &variable.item.role {
            let pairs = variable.item.pairs.as_slice();
            self.add_pairs(alloc, key, pairs, variable.first_cell)?;
        }
        Ok(())
    }

    // Adds the cell of an input with these pairs, from the last to the first: of pairs with the
    // same attribute the last counts.
    fn add_pairs(
        &mut self,
        alloc: Global,
        key: Key,
        pairs: &[(Name, Amount)],
        cell: u32,
    ) -> Result<(), AllocError>
        requires { IsNumbered self.old }
        ensures added { OnOk result ((a : List ℕ) (v : ℤ)
            → group_in self.new a v ≡ group_in self.old a v ++ (if is_one_of (last_value a pairs.now) (v ∷ []) then cell ∷ [] else [])) }
        ensures numbered { OnOk result (IsNumbered self.new) }
    {
        let mut seen = Names::under(alloc, key);
        let mut left = pairs.len();
        while left > 0 {
            left -= 1;
            let (attribute, value) = &pairs[left];
            self.add_pair(alloc, attribute.bytes(), *value, cell, &mut seen)?;
        }
        Ok(())
    }

    // Adds the cell of an input with this pair, unless its attribute is in `seen`.
    fn add_pair(
        &mut self,
        alloc: Global,
        attribute: &[u8],
        value: Amount,
        cell: u32,
        seen: &mut Names,
    ) -> Result<(), AllocError>
        requires { IsNumbered self.old }
        ensures added { OnOk result ((a : List ℕ) (v : ℤ)
            → group_in self.new a v ≡ group_in self.old a v ++
            (if not (has attribute.now seen.old) && (bytes_eq a attribute.now && int_eq value v) then cell ∷ [] else [])) }
        ensures seen { OnOk result ((a : List ℕ) → has a seen.new ≡ (has a seen.old || bytes_eq a attribute.now)) }
        ensures numbered { OnOk result (IsNumbered self.new) }
    {
        if !seen.add(alloc, attribute)? {
            return Ok(());
        }
        self.add(alloc, attribute, value, cell)?;
        Ok(())
    }

    // Appends the cell of an input to the cells that have this value of an attribute.
    fn add(
        &mut self,
        alloc: Global,
        attribute: &[u8],
        value: Amount,
        cell: u32,
    ) -> Result<(), AllocError>
        requires { IsNumbered self.old }
        ensures added { OnOk result ((a : List ℕ) (v : ℤ)
            → group_in self.new a v ≡ group_in self.old a v ++ (if bytes_eq a attribute.now && int_eq value v then cell ∷ [] else [])) }
        ensures numbered { OnOk result (IsNumbered self.new) }
    {
        let number = number_of(alloc, attribute, &mut self.attributes)?;
        add_cell(alloc, number, value.millionths(), cell, &mut self.groups)?;
        Ok(())
    }
}

// A hash key derived from all attributes, so that no choice of attributes makes them collide.
fn key_of(symbols: &Symbols) -> Key {
    let mut digest = NamesDigest::new();
    for v in 0..symbols.count() {
        for (attribute, _) in symbols.variable(v).item.pairs.as_slice() {
            digest.take(attribute.bytes());
        }
    }
    digest.key()
}

// The number of an attribute; a new one is added.
fn number_of(alloc: Global, attribute: &[u8], attributes: &mut Names) -> Result<usize, AllocError>
    ensures { IfOk result (λ n. HasNumber attributes.old attribute.now n attributes.new) }
{
    if let Some(number) = attributes.find(attribute) {
        return Ok(number);
    }
    let number = attributes.len();
    attributes.add(alloc, attribute)?;
    Ok(number)
}

// Appends a cell to those that have this value of the attribute with this number.
fn add_cell(
    alloc: Global,
    attribute: usize,
    value: i128,
    cell: u32,
    groups: &mut BTreeMap<(usize, i128), Vec<u32>>,
) -> Result<(), AllocError>
    ensures here { OnOk result (cells_of (get key_order groups.new (attribute, value)) ≡ cells_of (get key_order groups.old (attribute, value)) ++ cell ∷ []) }
    ensures others { OnOk result ((n : ℕ) (v : ℤ) → is_eq (key_order (attribute, value) (n, v)) ≡ false
        → get key_order groups.new (n, v) ≡ get key_order groups.old (n, v)) }
{
    let mut cells = match groups.remove(&(attribute, value)) {
        Some(cells) => cells,
        None => Vec::new(alloc),
    };
    cells.push(cell)?;
    groups.insert((attribute, value), cells)?;
    Ok(())
}
