//! Reads of tables at an index.

ghost use Rattle.std.specs.Prelude.{◌≡◌};
ghost use Rattle.micro_m.specs.Values.{picked, picked_at};

use m_fixed::{Amount, Value};

/// One unit, in millionths.
const UNIT: i128 = 1_000_000;

/// The result of indexing a table.
#[derive(Clone, Copy, Debug, PartialEq, Eq)]
pub enum Picked {
    /// One of its cells.
    Cell(usize),
    /// A value that doesn't depend on its cells.
    Fixed(Value),
}

/// The cell or the value of a table at an index, which is truncated toward zero to whole units. Of
/// the four cells from 5 on, 2.9 selects cell 7; -1 gives 0, and 4 gives undefined.
pub fn pick(first: u32, size: u32, index: Value) -> Picked
    ensures { result ≡ picked first size index }
{
    match index {
        Value::Undef => Picked::Fixed(Value::Undef),
        Value::Over => Picked::Fixed(Value::Over),
        Value::Num(amount) => picked_at(first, size, amount.millionths() / UNIT),
    }
}

/// The same at an index in whole units.
fn picked_at(first: u32, size: u32, index: i128) -> Picked
    ensures { result ≡ picked_at first size index }
{
    if index < 0 {
        return Picked::Fixed(Value::Num(Amount::zero()));
    }
    if index < size as i128 {
        Picked::Cell(first as usize + index as usize)
    } else {
        Picked::Fixed(Value::Undef)
    }
}
