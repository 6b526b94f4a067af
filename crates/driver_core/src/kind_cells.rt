//! The cells of a kind of inputs.

ghost use Rattle.std.specs.Prelude.{◌≡◌, ◌++◌, ◌||◌, ℕ, ℤ, [], IfOk, OnOk, length, min, if◌then◌else◌};
ghost use Rattle.std.specs.BTreeSet.{contains};
ghost use Rattle.std.specs.Ordering.{int_cmp, int_eq};
ghost use Rattle.driver_core.specs.Groups.{group_at, joined, groups_at, groups_in};
ghost use Rattle.driver_core.specs.Ascending.{ascending, times};

use crate::kind_index::KindIndex;
use m_fixed::Amount;
use std::alloc::{AllocError, Global};
use std::collections::BTreeSet;
use std::marker::Model;
use std::rc::Rc;

/// The cells of the inputs whose attribute has one of some values. They aren't stored, but looked
/// up in an index on request; the weight of the command bounds that work. Contracts see them as a
/// list in ascending order.
#[derive(Drop)]
pub struct KindCells {
    index: Rc<KindIndex>,
    /// The number of the attribute in the index.
    attribute: usize,
    /// The distinct values, without those that no input has.
    values: Vec<Amount>,
    /// The count of the cells, saturated at 64 bits.
    count: u64,
}

impl Model for KindCells {
    ghost use Rattle.std.specs.Prelude.{◌≡◌, ℕ, List, length, min};

    ghost Value = { List ℕ };

    ghost use Rattle.driver_core.specs.Groups.{joined};
    ghost use Rattle.driver_core.specs.Ascending.{ascending};

    ghost view = { λ k. ascending (joined k.index.value k.attribute k.values.items) };

    ghost invariant = { λ k. k.count ≡ min (length (joined k.index.value k.attribute k.values.items)) 18_446_744_073_709_551_615 };
}

impl KindCells {
    /// The cells of the inputs whose attribute has one of these values, by the index of all
    /// declared inputs.
    pub fn new(
        alloc: Global,
        index: &Rc<KindIndex>,
        attribute: &[u8],
        values: &[Amount],
    ) -> Result<KindCells, AllocError>
        ensures { IfOk result (λ cells. cells ≡ ascending (groups_in index.now.value attribute.now values.now)) }
    {
        match index.as_ref().attributes.find(attribute) {
            Some(attribute) => numbered(alloc, index, attribute, values),
            None => none(alloc, index),
        }
    }

    /// The count of the cells, saturated at 64 bits. Takes no memory.
    pub fn len(&self) -> u64
        ensures { result ≡ min (length self.now) 18_446_744_073_709_551_615 }
    {
        self.count
    }

    /// The cells in ascending order.
    pub fn cells(&self, alloc: Global) -> Result<Vec<u32>, AllocError>
        ensures { IfOk result (λ cells. cells.items ≡ self.now) }
    {
        let mut cells = gathered(alloc, self.index.as_ref(), self.attribute, &self.values)?;
        cells.sort()?;
        Ok(cells)
    }

    /// A copy that shares the index. With 2^64 - 1 copies of one index the error is out of memory.
    pub fn copy(&self, alloc: Global) -> Result<KindCells, AllocError>
        ensures { IfOk result (λ copy. copy ≡ self.now) }
    {
        Ok(KindCells {
            index: self.index.clone()?,
            attribute: self.attribute,
            values: Vec::from_slice(alloc, &self.values)?,
            count: self.count,
        })
    }
}

// No cells.
fn none(alloc: Global, index: &Rc<KindIndex>) -> Result<KindCells, AllocError>
    ensures { IfOk result (λ cells. cells ≡ []) }
{
    Ok(KindCells {
        index: index.clone()?,
        attribute: 0,
        values: Vec::new(alloc),
        count: 0,
    })
}

// The cells that have one of these values of the attribute with this number.
fn numbered(
    alloc: Global,
    index: &Rc<KindIndex>,
    attribute: usize,
    values: &[Amount],
) -> Result<KindCells, AllocError>
    ensures { IfOk result (λ cells. cells ≡ ascending (groups_at index.now.value attribute values.now)) }
{
    let (values, count) = kept_values(alloc, index.as_ref(), attribute, values)?;
    Ok(KindCells {
        index: index.clone()?,
        attribute,
        values,
        count,
    })
}

// The distinct values that some input has, and the count of the cells that have them.
fn kept_values(
    alloc: Global,
    index: &KindIndex,
    attribute: usize,
    values: &[Amount],
) -> Result<(Vec<Amount>, u64), AllocError>
    ensures values { IfOk result (λ kept. (cell : ℕ) → times cell (joined index.now attribute kept.0.items)
        ≡ times cell (groups_at index.now attribute values.now)) }
    ensures count { IfOk result (λ kept. kept.1 ≡ min (length (joined index.now attribute kept.0.items)) 18_446_744_073_709_551_615) }
{
    let mut seen = BTreeSet::new(alloc);
    let mut kept = Vec::new(alloc);
    let mut count = 0;
    let mut left = values.len();
    while left > 0 {
        left -= 1;
        count = keep_once(index, attribute, values[left], count, &mut seen, &mut kept)?;
    }
    Ok((kept, count))
}

// Keeps a value that isn't in `seen`, if an input has it.
fn keep_once(
    index: &KindIndex,
    attribute: usize,
    value: Amount,
    count: u64,
    seen: &mut BTreeSet<i128>,
    kept: &mut Vec<Amount>,
) -> Result<u64, AllocError>
    requires { count ≡ min (length (joined index.now attribute kept.old.items)) 18_446_744_073_709_551_615 }
    ensures kept { OnOk result (joined index.now attribute kept.new.items
        ≡ joined index.now attribute kept.old.items ++ (if contains int_cmp seen.old value then [] else group_at index.now attribute value)) }
    ensures seen { OnOk result ((v : ℤ) → contains int_cmp seen.new v ≡ (int_eq v value || contains int_cmp seen.old v)) }
    ensures count { IfOk result (λ n. n ≡ min (length (joined index.now attribute kept.new.items)) 18_446_744_073_709_551_615) }
{
    if !seen.insert(value.millionths())? {
        return Ok(count);
    }
    let more = keep(index, attribute, value, count, kept)?;
    Ok(more)
}

// Keeps a value, if an input has it, and adds its cells to the count, saturated at 64 bits.
fn keep(
    index: &KindIndex,
    attribute: usize,
    value: Amount,
    count: u64,
    kept: &mut Vec<Amount>,
) -> Result<u64, AllocError>
    requires { count ≡ min (length (joined index.now attribute kept.old.items)) 18_446_744_073_709_551_615 }
    ensures kept { OnOk result (joined index.now attribute kept.new.items ≡ joined index.now attribute kept.old.items ++ group_at index.now attribute value) }
    ensures count { IfOk result (λ n. n ≡ min (length (joined index.now attribute kept.new.items)) 18_446_744_073_709_551_615) }
{
    let Some(group) = index.groups.get(&(attribute, value.millionths())) else {
        return Ok(count);
    };
    kept.push(value)?;
    Ok(count.saturating_add(group.len() as u64))
}

// The concatenated cells of these values of an attribute.
fn gathered(
    alloc: Global,
    index: &KindIndex,
    attribute: usize,
    values: &[Amount],
) -> Result<Vec<u32>, AllocError>
    ensures { IfOk result (λ cells. cells.items ≡ joined index.now attribute values.now) }
{
    let mut cells = Vec::new(alloc);
    for value in values {
        add_group(index, attribute, *value, &mut cells)?;
    }
    Ok(cells)
}

// Appends the cells that have this value.
fn add_group(
    index: &KindIndex,
    attribute: usize,
    value: Amount,
    cells: &mut Vec<u32>,
) -> Result<(), AllocError>
    ensures { OnOk result (cells.new.items ≡ cells.old.items ++ group_at index.now attribute value) }
{
    if let Some(group) = index.groups.get(&(attribute, value.millionths())) {
        cells.extend_from_slice(group)?;
    }
    Ok(())
}
