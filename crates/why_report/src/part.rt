//! Parts of terms in reverse Polish form, and what each does with a stack.

ghost use Rattle.std.specs.Prelude.{◌≡◌};
ghost use Rattle.micro_m.specs.Values.{applied, environment, picked, picked_value};
ghost use Rattle.why_report.specs.inner.Parts.{literal, pushed, selected, taken};

use crate::check::value_at;
use crate::packed::PackedAmount;
use m_fixed::{Op, Value, apply};
use micro_m::{Picked, pick};

/// A part of a term in reverse Polish form: the arguments of an operator come before it. Each part
/// takes values off a stack and puts one on it. `A - 1` is the cell of `A`, the number 1, and `-`
/// over two values.
#[derive(Drop)]
pub(crate) enum Part {
    /// A literal that is undefined.
    Undefined,
    /// A literal beyond the greatest amount.
    Overflow,
    /// A literal that is a number.
    Number(PackedAmount),
    /// The value of a cell.
    Read(usize),
    /// A table read: its first cell and its size. The index is taken off the stack.
    ReadAt(u32, u32),
    /// An operator, and how many arguments are taken off the stack.
    Do(Op, usize),
}

/// The part of a literal.
pub(crate) fn literal(value: Value) -> Part
    ensures { result ≡ literal value }
{
    match value {
        Value::Undef => Part::Undefined,
        Value::Over => Part::Overflow,
        Value::Num(amount) => Part::Number(PackedAmount::of(amount)),
    }
}

/// The part of a table read at a literal index.
pub(crate) fn selected(picked: Picked) -> Part
    ensures { result ≡ selected picked }
{
    match picked {
        Picked::Cell(cell) => Part::Read(cell),
        Picked::Fixed(value) => literal(value),
    }
}

/// How many values a part takes off the stack.
pub(crate) fn taken(part: &Part) -> usize
    ensures { result ≡ taken part.now }
{
    match part {
        Part::Undefined => 0,
        Part::Overflow => 0,
        Part::Number(_) => 0,
        Part::Read(_) => 0,
        Part::ReadAt(_, _) => 1,
        Part::Do(_, count) => *count,
    }
}

/// The value that a part puts on the stack, given those that it took off, in order.
pub(crate) fn pushed(part: &Part, arguments: &[Value], values: &[Value]) -> Value
    ensures { result ≡ pushed (environment values.now) arguments.now part.now }
{
    match part {
        Part::Undefined => Value::Undef,
        Part::Overflow => Value::Over,
        Part::Number(amount) => Value::Num(amount.amount()),
        Part::Read(cell) => value_at(values, *cell),
        Part::ReadAt(first, size) => read_table(*first, *size, value_at(arguments, 0), values),
        Part::Do(op, _) => applied(*op, arguments),
    }
}

// The value of a table read at an index.
fn read_table(first: u32, size: u32, index: Value, values: &[Value]) -> Value
    ensures { result ≡ picked_value (environment values.now) (picked first size index) }
{
    match pick(first, size, index) {
        Picked::Cell(cell) => value_at(values, cell),
        Picked::Fixed(value) => value,
    }
}

// An operator on its arguments; missing ones are undefined.
fn applied(op: Op, arguments: &[Value]) -> Value
    ensures { result ≡ applied op arguments.now }
{
    apply(
        op,
        value_at(arguments, 0),
        value_at(arguments, 1),
        value_at(arguments, 2),
    )
}
