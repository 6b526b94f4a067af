//! Computes the values of a column: an input, a literal, a copy or an operator's result.
ghost use Rattle.std.specs.Prelude.{◌≡◌, ◌<◌, ◌≤◌, ℕ, length, take};
ghost use Rattle.m_fixed.specs.Operators.{op_value};
ghost use Rattle.reg_machine.specs.inner.Cells.{at};
ghost use Rattle.m_batch.specs.inner.Rows.{row_at, row_of};
ghost use Rattle.m_batch.specs.inner.Rooms.{AreWide};

use crate::room::BLOCK;
use m_fixed::{Op, Value, apply};

/// The values of rows at a position.
pub(crate) fn give_inputs(place: usize, rows: &[Vec<Value>], scratch: &mut Vec<Value>)
    requires width { length rows.now ≤ length scratch.old.items }
    ensures room { length scratch.new.items ≡ length scratch.old.items }
    ensures value { (r : ℕ) → r < length rows.now → at scratch.new.items r ≡ at (row_at rows.now r) place }
{
    let (out, _) = scratch.as_mut_slice().split_at_mut(rows.len());
    each_input(place, rows, out);
}

fn each_input(place: usize, rows: &[Vec<Value>], out: &mut [Value])
    requires many { length out.old ≡ length rows.now }
    ensures { (r : ℕ) → r < length rows.now → at out.new r ≡ at (row_at rows.now r) place }
{
    for r in 0..rows.len() {
        out[r] = value_in(&rows[r], place);
    }
}

// The value of a row at a position, or undefined past the end.
fn value_in(row: &Vec<Value>, place: usize) -> Value
    ensures { result ≡ at row.now.items place }
{
    if place < row.len() {
        row[place]
    } else {
        Value::Undef
    }
}

/// One value, `many` times.
pub(crate) fn give_literal(value: &Value, many: usize, scratch: &mut Vec<Value>)
    requires width { many ≤ length scratch.old.items }
    ensures room { length scratch.new.items ≡ length scratch.old.items }
    ensures value { (r : ℕ) → r < many → at scratch.new.items r ≡ value.now }
{
    let (out, _) = scratch.as_mut_slice().split_at_mut(many);
    each_literal(value, out);
}

fn each_literal(value: &Value, out: &mut [Value])
    ensures { (r : ℕ) → r < length out.old → at out.new r ≡ value.now }
{
    for r in 0..out.len() {
        out[r] = *value;
    }
}

/// The first values of another column.
pub(crate) fn give_copy(column: &Vec<Value>, many: usize, scratch: &mut Vec<Value>)
    requires column { many ≤ length column.now.items }
    requires width { many ≤ length scratch.old.items }
    ensures room { length scratch.new.items ≡ length scratch.old.items }
    ensures value { (r : ℕ) → r < many → at scratch.new.items r ≡ at column.now.items r }
{
    let (out, _) = scratch.as_mut_slice().split_at_mut(many);
    each_copy(front(column, many), out);
}

fn each_copy(column: &[Value], out: &mut [Value])
    requires { length column.now ≡ length out.old }
    ensures { (r : ℕ) → r < length out.old → at out.new r ≡ at column.now r }
{
    out.copy_from_slice(column);
}

/// The results of an operator on three registers.
pub(crate) fn give_result(
    op: Op,
    of: (u8, u8, u8),
    registers: &[Vec<Value>],
    many: usize,
    scratch: &mut Vec<Value>,
)
    requires a { of.0 < length registers.now }
    requires b { of.1 < length registers.now }
    requires c { of.2 < length registers.now }
    requires many { many ≤ BLOCK }
    requires wide { AreWide registers.now }
    requires width { many ≤ length scratch.old.items }
    ensures room { length scratch.new.items ≡ length scratch.old.items }
    ensures value { (r : ℕ) → r < many → at scratch.new.items r
        ≡ op_value op (at (row_of r registers.now) of.0) (at (row_of r registers.now) of.1) (at (row_of r registers.now) of.2) }
{
    let (out, _) = scratch.as_mut_slice().split_at_mut(many);
    each_result(
        op,
        of.0 as usize,
        of.1 as usize,
        of.2 as usize,
        registers,
        out,
    );
}

fn each_result(op: Op, a: usize, b: usize, c: usize, registers: &[Vec<Value>], out: &mut [Value])
    requires a { a < length registers.now }
    requires b { b < length registers.now }
    requires c { c < length registers.now }
    requires many { length out.old ≤ BLOCK }
    requires wide { AreWide registers.now }
    ensures { (r : ℕ) → r < length out.old → at out.new r
        ≡ op_value op (at (row_of r registers.now) a) (at (row_of r registers.now) b) (at (row_of r registers.now) c) }
{
    let many = out.len();
    by_operator(
        op,
        front(&registers[a], many),
        front(&registers[b], many),
        front(&registers[c], many),
        out,
    );
}

/// The first `many` values of a column.
pub(crate) fn front(column: &Vec<Value>, many: usize) -> &[Value]
    requires { many ≤ length column.now.items }
    ensures { result.now ≡ take many column.now.items }
{
    &column.as_slice()[..many]
}

// Each arm names its operator, so that the compiler makes a specialised loop for it.
fn by_operator(op: Op, a: &[Value], b: &[Value], c: &[Value], out: &mut [Value])
    requires a { length a.now ≡ length out.old }
    requires b { length b.now ≡ length out.old }
    requires c { length c.now ≡ length out.old }
    ensures { (r : ℕ) → r < length out.old → at out.new r ≡ op_value op (at a.now r) (at b.now r) (at c.now r) }
{
    match op {
        Op::Add => each(Op::Add, a, b, c, out),
        Op::Sub => each(Op::Sub, a, b, c, out),
        Op::Mul => each(Op::Mul, a, b, c, out),
        Op::Div => each(Op::Div, a, b, c, out),
        Op::Neg => each(Op::Neg, a, b, c, out),
        Op::Eq => each(Op::Eq, a, b, c, out),
        Op::Ne => each(Op::Ne, a, b, c, out),
        Op::Lt => each(Op::Lt, a, b, c, out),
        Op::Le => each(Op::Le, a, b, c, out),
        Op::Gt => each(Op::Gt, a, b, c, out),
        Op::Ge => each(Op::Ge, a, b, c, out),
        Op::And => each(Op::And, a, b, c, out),
        Op::Or => each(Op::Or, a, b, c, out),
        Op::Not => each(Op::Not, a, b, c, out),
        Op::Present => each(Op::Present, a, b, c, out),
        Op::Abs => each(Op::Abs, a, b, c, out),
        Op::Positive => each(Op::Positive, a, b, c, out),
        Op::PositiveOrNull => each(Op::PositiveOrNull, a, b, c, out),
        Op::Null => each(Op::Null, a, b, c, out),
        Op::Arr => each(Op::Arr, a, b, c, out),
        Op::Inf => each(Op::Inf, a, b, c, out),
        Op::Max => each(Op::Max, a, b, c, out),
        Op::Min => each(Op::Min, a, b, c, out),
        Op::Truth => each(Op::Truth, a, b, c, out),
        Op::Choose => each(Op::Choose, a, b, c, out),
        Op::At => each(Op::At, a, b, c, out),
    }
}

#[inline(always)]
fn each(op: Op, a: &[Value], b: &[Value], c: &[Value], out: &mut [Value])
    requires a { length a.now ≡ length out.old }
    requires b { length b.now ≡ length out.old }
    requires c { length c.now ≡ length out.old }
    ensures { (r : ℕ) → r < length out.old → at out.new r ≡ op_value op (at a.now r) (at b.now r) (at c.now r) }
{
    for r in 0..out.len() {
        out[r] = apply(op, a[r], b[r], c[r]);
    }
}
