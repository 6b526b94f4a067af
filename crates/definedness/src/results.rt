//! Bounds of an operator's results, from the ends of its arguments' intervals.
ghost use Rattle.std.specs.Prelude.{◌≡◌, ◌⊎◌, pos, ◌+ℤ◌, ◌-ℤ◌, ◌*ℤ◌, ◌*◌, ◌≤◌, unsigned_abs};
ghost use Rattle.m_fixed.specs.declared.operator.Op.TheVariants.{Add, Sub, Mul, Div, Neg, Abs, Max, Min, Arr, Inf, Eq, At};
ghost use Rattle.m_fixed.specs.Amounts.{IsAmount, unit, most};
ghost use Rattle.m_fixed.specs.Operators.{result_of, cut};
ghost use Rattle.definedness.specs.Ranges.{has_zero, has_other, alone};
ghost use Rattle.definedness.specs.Results.{truths, may_be_equal, may_differ, may_be_less, may_be_at_most, corners};
ghost use Rattle.definedness.specs.Results.{quotients, cut_range, least_size, greatest_size, sizes, results_of, least_of, greatest_of};
ghost use Rattle.definedness.specs.inner.Limits.{limited, limited_range, signed_beyond};

use crate::range::{LEAST, MOST, Range, amount, greater, has_other, has_zero, lesser};
use m_fixed::{Amount, Op, Value, apply};

/// One unit, in millionths.
const UNIT: i128 = 1_000_000;

/// The least and the greatest result, in millionths. A result beyond the amounts may be replaced by
/// another beyond them, on the same side.
pub(crate) fn results_of(op: Op, a: Range, b: Range) -> (i128, i128)
    ensures { limited_range result ≡ limited_range (results_of op a b) }
{
    match op {
        Op::Add => (sum(a.low, b.low), sum(a.high, b.high)),
        Op::Sub => (difference(a.low, b.high), difference(a.high, b.low)),
        Op::Mul => corners(Op::Mul, a, b),
        Op::Div => quotients(a, b),
        Op::Neg => opposites(a),
        Op::Abs => sizes(a),
        Op::Arr | Op::Inf => (whole(op, a.low), whole(op, a.high)),
        Op::Max => (
            greater(a.low, b.low).millionths(),
            greater(a.high, b.high).millionths(),
        ),
        Op::Min => (
            lesser(a.low, b.low).millionths(),
            lesser(a.high, b.high).millionths(),
        ),
        Op::Eq => meetings(a, b),
        Op::Ne => truths(may_differ(a, b), may_be_equal(a, b)),
        Op::Lt => truths(may_be_less(a, b), may_be_at_most(b, a)),
        Op::Le => truths(may_be_at_most(a, b), may_be_less(b, a)),
        Op::Gt => truths(may_be_less(b, a), may_be_at_most(a, b)),
        Op::Ge => truths(may_be_at_most(b, a), may_be_less(a, b)),
        Op::And => truths(has_other(a) && has_other(b), has_zero(a) || has_zero(b)),
        Op::Or => truths(has_other(a) || has_other(b), has_zero(a) && has_zero(b)),
        Op::Not | Op::Null => truths(has_zero(a), has_other(a)),
        Op::Present => (UNIT, UNIT),
        Op::Positive => truths(0 < a.high.millionths(), a.low.millionths() <= 0),
        Op::PositiveOrNull => truths(0 <= a.high.millionths(), a.low.millionths() < 0),
        Op::Truth => truths(has_other(a), has_zero(a)),
        Op::Choose => (b.low.millionths(), b.high.millionths()),
        Op::At => meetings(cut_range(a), cut_range(b)),
    }
}

// ---- tests

/// 0 to 1, without 0 if the test can't fail and without 1 if it can't pass.
pub(crate) fn truths(passes: bool, fails: bool) -> (i128, i128)
    ensures { result ≡ truths passes fails }
{
    (if fails { 0 } else { UNIT }, if passes { UNIT } else { 0 })
}

/// Whether some number of the first interval is below one of the second.
fn may_be_less(a: Range, b: Range) -> bool
    ensures { result ≡ may_be_less a b }
{
    a.low.millionths() < b.high.millionths()
}

/// Whether some number of the first interval is at most one of the second.
fn may_be_at_most(a: Range, b: Range) -> bool
    ensures { result ≡ may_be_at_most a b }
{
    a.low.millionths() <= b.high.millionths()
}

/// Whether the intervals have a common number.
fn may_be_equal(a: Range, b: Range) -> bool
    ensures { result ≡ may_be_equal a b }
{
    may_be_at_most(a, b) && may_be_at_most(b, a)
}

/// Whether two numbers of the intervals can differ.
fn may_differ(a: Range, b: Range) -> bool
    ensures { result ≡ may_differ a b }
{
    may_be_less(a, b) || may_be_less(b, a)
}

/// The results of a test for equality.
fn meetings(a: Range, b: Range) -> (i128, i128)
    ensures { result ≡ results_of Eq a b }
{
    truths(may_be_equal(a, b), may_differ(a, b))
}

/// The integer parts of the numbers, as an interval that counts units in place of millionths.
fn cut_range(a: Range) -> Range
    ensures { result ≡ cut_range a }
{
    Range {
        low: amount(cut(a.low)),
        high: amount(cut(a.high)),
    }
}

/// The integer part of an amount, in units.
fn cut(x: Amount) -> i128
    ensures { result ≡ cut x }
{
    x.millionths() / UNIT
}

// ---- numbers

fn sum(x: Amount, y: Amount) -> i128
    ensures { result ≡ x +ℤ y }
{
    x.millionths() + y.millionths()
}

fn difference(x: Amount, y: Amount) -> i128
    ensures { result ≡ x -ℤ y }
{
    x.millionths() - y.millionths()
}

fn opposites(a: Range) -> (i128, i128)
    ensures { result ≡ results_of Neg a a }
{
    (-a.high.millionths(), -a.low.millionths())
}

fn sizes(a: Range) -> (i128, i128)
    ensures { result ≡ sizes a }
{
    (least_size(a), greatest_size(a))
}

fn least_size(a: Range) -> i128
    ensures { result ≡ least_size a }
{
    a.low.millionths().max(-a.high.millionths()).max(0)
}

/// The result of rounding an amount to whole units, which is an amount.
fn whole(op: Op, x: Amount) -> i128
    requires whole { (op ≡ Arr) ⊎ (op ≡ Inf) }
    requires amount { IsAmount x }
    ensures { result ≡ result_of op x (pos 0) }
{
    match apply(op, Value::Num(x), Value::Undef, Value::Undef) {
        Value::Num(whole) => whole.millionths(),
        Value::Undef | Value::Over => unreachable!(),
    }
}

/// The quotients of numbers of two intervals.
fn quotients(a: Range, b: Range) -> (i128, i128)
    ensures { limited_range result ≡ limited_range (quotients a b) }
{
    if !has_zero(b) {
        return corners(Op::Div, a, b);
    }
    if !has_other(b) {
        return (0, 0);
    }
    let greatest = greatest_quotient(a);
    (-greatest, greatest)
}

/// An upper bound of the absolute value of quotients: a divisor is at least one millionth in
/// absolute value.
fn greatest_quotient(a: Range) -> i128
    ensures value { result ≡ greatest_size a *ℤ pos unit }
    ensures bound { unsigned_abs result ≤ most * unit }
{
    greatest_size(a) * UNIT
}

/// The greatest absolute value of the numbers of an interval.
fn greatest_size(a: Range) -> i128
    ensures value { result ≡ greatest_size a }
    ensures bound { unsigned_abs result ≤ most }
{
    (-a.low.millionths()).max(a.high.millionths())
}

/// From the least to the greatest product or quotient of the ends.
fn corners(op: Op, a: Range, b: Range) -> (i128, i128)
    requires { (op ≡ Mul) ⊎ (op ≡ Div) }
    ensures { result ≡ limited_range (corners op a b) }
{
    let (p, q) = (corner(op, a.low, b.low), corner(op, a.low, b.high));
    let (r, s) = (corner(op, a.high, b.low), corner(op, a.high, b.high));
    (least_of(p, q, r, s), greatest_of(p, q, r, s))
}

#[tactic(auto, unfolding(crate::specs::Results::least_of))]
fn least_of(p: i128, q: i128, r: i128, s: i128) -> i128
    ensures { result ≡ least_of p q r s }
{
    p.min(q).min(r.min(s))
}

#[tactic(auto, unfolding(crate::specs::Results::greatest_of))]
fn greatest_of(p: i128, q: i128, r: i128, s: i128) -> i128
    ensures { result ≡ greatest_of p q r s }
{
    p.max(q).max(r.max(s))
}

/// A product or a quotient; if it is Over, the nearest number beyond the amounts.
fn corner(op: Op, x: Amount, y: Amount) -> i128
    requires { (op ≡ Mul) ⊎ (op ≡ Div) }
    ensures { result ≡ limited (result_of op x y) }
{
    match apply(op, Value::Num(x), Value::Num(y), Value::Undef) {
        Value::Num(z) => z.millionths(),
        Value::Undef | Value::Over => beyond(x, y),
    }
}

/// The number beyond the amounts that is nearest to a product or a quotient of these.
fn beyond(x: Amount, y: Amount) -> i128
    ensures { result ≡ signed_beyond x y }
{
    if (x.millionths() < 0) == (y.millionths() < 0) {
        MOST + 1
    } else {
        LEAST - 1
    }
}
