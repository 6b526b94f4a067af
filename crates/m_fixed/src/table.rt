//! The result of each operator. All take three values: one table is simpler than a function per
//! arity, and programs call operators with three values anyway.
ghost use Rattle.std.specs.Prelude.{◌≡◌, if◌then◌else◌};
ghost use Rattle.std.specs.Int.{int_max, int_min};
ghost use Rattle.m_fixed.specs.Operators.{op_value, of_one, of_two, chosen, truth_of, bounded, counts_undefined_as_zero, result_of, truth};

use crate::amount::UNIT;
use crate::divide::{cut, nearest_units, product, quotient, units_not_above};
use crate::{Amount, Op, Value};

/// The result of the operator: `Op::Div` of 2 and 3 units is 0.666667, `Op::Add` of 2 units and
/// undefined is 2 units. Arguments past its arity are ignored; callers pass `Undef`.
#[tactic(auto, unfolding(crate::specs::Operators::op_value))]
pub fn apply(op: Op, a: Value, b: Value, c: Value) -> Value
    ensures { result ≡ op_value op a b c }
{
    match op {
        Op::Choose => choose(a, b, c),
        Op::Truth => truth_value(a),
        Op::Neg
        | Op::Not
        | Op::Present
        | Op::Abs
        | Op::Positive
        | Op::PositiveOrNull
        | Op::Null
        | Op::Arr
        | Op::Inf => apply_one(op, a),
        Op::Add
        | Op::Sub
        | Op::Mul
        | Op::Div
        | Op::Eq
        | Op::Ne
        | Op::Lt
        | Op::Le
        | Op::Gt
        | Op::Ge
        | Op::And
        | Op::Or
        | Op::Max
        | Op::Min
        | Op::At => apply_two(op, a, b),
    }
}

/// The branch that the condition selects.
fn choose(c: Value, a: Value, b: Value) -> Value
    ensures { result ≡ chosen c a b }
{
    match c {
        Value::Undef => Value::Undef,
        Value::Over => Value::Over,
        Value::Num(x) => { if x.millionths() == 0 { b } else { a } }
    }
}

/// 1 for a number other than 0, and else 0.
fn truth_value(a: Value) -> Value
    ensures { result ≡ truth_of a }
{
    match a {
        Value::Num(x) => whether(x.millionths() != 0),
        Value::Undef | Value::Over => whether(false),
    }
}

/// The result of an operator of one argument.
fn apply_one(op: Op, a: Value) -> Value
    ensures { result ≡ of_one op a }
{
    match a {
        Value::Over => Value::Over,
        Value::Undef => {
            if op == Op::Present {
                whether(false)
            } else {
                Value::Undef
            }
        }
        Value::Num(x) => bounded(result_of(op, x, Amount::zero())),
    }
}

/// The result of an operator of two arguments. Two numbers are the frequent case, so they are
/// tested first.
fn apply_two(op: Op, a: Value, b: Value) -> Value
    ensures { result ≡ of_two op a b }
{
    if let Value::Num(x) = a
        && let Value::Num(y) = b
    {
        return of_numbers(op, x, y);
    }
    match a {
        Value::Over => Value::Over,
        Value::Undef => match b {
            Value::Over => Value::Over,
            Value::Undef => Value::Undef,
            Value::Num(y) => with_one_undefined(op, Amount::zero(), y),
        },
        Value::Num(x) => {
            if b == Value::Over {
                Value::Over
            } else {
                with_one_undefined(op, x, Amount::zero())
            }
        }
    }
}

/// The result on two numbers. `max` and `min` are amounts already, so they skip the bound.
fn of_numbers(op: Op, x: Amount, y: Amount) -> Value
    ensures { result ≡ bounded (result_of op x y) }
{
    if op == Op::Max {
        return Value::Num(greater(x, y));
    }
    if op == Op::Min {
        return Value::Num(lesser(x, y));
    }
    bounded(result_of(op, x, y))
}

fn greater(x: Amount, y: Amount) -> Amount
    ensures { result ≡ int_max x y }
{
    if y.millionths() < x.millionths() {
        x
    } else {
        y
    }
}

fn lesser(x: Amount, y: Amount) -> Amount
    ensures { result ≡ int_min x y }
{
    if y.millionths() < x.millionths() {
        y
    } else {
        x
    }
}

/// The result if one argument is undefined and passed as 0.
fn with_one_undefined(op: Op, x: Amount, y: Amount) -> Value
    ensures { result ≡ (if counts_undefined_as_zero op then bounded (result_of op x y) else Value.Undef) }
{
    match op {
        Op::Add | Op::Sub | Op::Or | Op::Max | Op::Min => bounded(result_of(op, x, y)),
        Op::Mul
        | Op::Div
        | Op::Neg
        | Op::Eq
        | Op::Ne
        | Op::Lt
        | Op::Le
        | Op::Gt
        | Op::Ge
        | Op::And
        | Op::Not
        | Op::Present
        | Op::Abs
        | Op::Positive
        | Op::PositiveOrNull
        | Op::Null
        | Op::Arr
        | Op::Inf
        | Op::Truth
        | Op::Choose
        | Op::At => Value::Undef,
    }
}

/// The result on two numbers, in millionths and without a bound; an operator of one argument uses
/// the first.
fn result_of(op: Op, x: Amount, y: Amount) -> i128
    ensures { result ≡ result_of op x y }
{
    let (a, b) = (x.millionths(), y.millionths());
    match op {
        Op::Add => a + b,
        Op::Sub => a - b,
        Op::Mul => product(a, b),
        Op::Div => quotient(x, y),
        Op::Neg => -a,
        Op::Eq => truth(a == b),
        Op::Ne => truth(a != b),
        Op::Lt => truth(a < b),
        Op::Le => truth(a <= b),
        Op::Gt => truth(a > b),
        Op::Ge => truth(a >= b),
        Op::And => truth(a != 0 && b != 0),
        Op::Or => UNIT as i128 - truth(a == 0 && b == 0),
        Op::Not | Op::Null => truth(a == 0),
        Op::Present => UNIT as i128,
        Op::Abs => a.abs(),
        Op::Positive => truth(-a < 0),
        Op::PositiveOrNull => truth(a >= 0),
        Op::Arr => nearest_units(x),
        Op::Inf => units_not_above(x),
        Op::Max => a.max(b),
        Op::Min => a.min(b),
        Op::Truth => truth(a != 0),
        Op::Choose => b,
        Op::At => truth(cut(x) == cut(y)),
    }
}

/// A number of millionths as a value: `Over` if it is no amount.
fn bounded(millionths: i128) -> Value
    ensures { result ≡ bounded millionths }
{
    match Amount::new(millionths) {
        Some(amount) => Value::Num(amount),
        None => Value::Over,
    }
}

/// 1 or 0, in millionths.
fn truth(test: bool) -> i128
    ensures { result ≡ truth test }
{
    Amount::of_test(test).millionths()
}

/// 1 or 0, as a value.
fn whether(test: bool) -> Value
    ensures { result ≡ Value.Num (truth test) }
{
    Value::Num(Amount::of_test(test))
}
