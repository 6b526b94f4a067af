//! The facts of operators.
ghost use Rattle.std.specs.Prelude.{◌≡◌, ◌||◌, ◌&&◌, ◌≤ℤ◌, pos, IsTrue, is_some};
ghost use Rattle.definedness.specs.Facts.{fact_of, is_over_alone, bounded_fact, fact_of_ranges, presence, fact_of_one};
ghost use Rattle.definedness.specs.Facts.{widened, fact_of_two_widened, fact_of_two, truths_of, truth_fact, either, choice};
ghost use Rattle.definedness.specs.inner.Branches.{branches};
ghost use Rattle.definedness.specs.Ranges.{alone};
ghost use Rattle.definedness.specs.Results.{truths};
ghost use Rattle.definedness.specs.inner.Limits.{limited};

use crate::fact::{Fact, over_alone};
use crate::range::{
    Range, alone, amount, cut_to_amounts, has_other, has_zero, join, leaves_amounts,
};
use crate::results::{results_of, truths};
use m_fixed::{Amount, Op};

/// The fact of an operator's value, from the facts of its arguments. Of `Op::Mul` and two inputs
/// undefined, Over and any amount are possible; of `Op::Present` 0 or 1. Arguments past the arity
/// are ignored.
#[tactic(auto, unfolding(crate::specs::Facts::fact_of))]
pub fn fact_of(op: Op, a: Fact, b: Fact, c: Fact) -> Fact
    ensures { result ≡ fact_of op a b c }
{
    match op {
        Op::Choose => choice(a, b, c),
        Op::Truth => truth_fact(a),
        Op::Neg
        | Op::Not
        | Op::Present
        | Op::Abs
        | Op::Positive
        | Op::PositiveOrNull
        | Op::Null
        | Op::Arr
        | Op::Inf => {
            if is_over_alone(a) {
                over_alone()
            } else {
                fact_of_one(op, a)
            }
        }
        Op::Add
        | Op::Sub
        | Op::Mul
        | Op::Div
        | Op::Eq
        | Op::Ne
        | Op::Lt
        | Op::Le
        | Op::Gt
        | Op::Ge
        | Op::And
        | Op::Or
        | Op::Max
        | Op::Min
        | Op::At => {
            if is_over_alone(a) || is_over_alone(b) {
                over_alone()
            } else {
                fact_of_two(op, a, b)
            }
        }
    }
}

/// Whether only Over is possible.
fn is_over_alone(fact: Fact) -> bool
    ensures { result ≡ is_over_alone fact }
{
    !fact.undef && fact.range.is_none()
}

/// The fact of numbers from `low` to `high` as values: those beyond the amounts are Over.
fn bounded_fact(undef: bool, over: bool, low: i128, high: i128) -> Fact
    requires { limited low ≤ℤ limited high }
    ensures { result ≡ bounded_fact undef over (low, high) }
{
    let leaves = leaves_amounts(low, high);
    Fact::new(undef, over || leaves, cut_to_amounts(low, high))
}

/// The fact of the operator on numbers of two intervals, together with `undef` and `over`.
fn fact_of_ranges(op: Op, undef: bool, over: bool, a: Option<Range>, b: Option<Range>) -> Fact
    requires { IsTrue (undef || over || is_some a && is_some b) }
    ensures { result ≡ fact_of_ranges op undef over a b }
{
    if let Some(a) = a
        && let Some(b) = b
    {
        a.shows_order();
        b.shows_order();
        let (low, high) = results_of(op, a, b);
        bounded_fact(undef, over, low, high)
    } else {
        Fact::new(undef, over, None)
    }
}

// ---- one argument

/// The fact of an operator of one argument.
fn fact_of_one(op: Op, a: Fact) -> Fact
    ensures { result ≡ fact_of_one op a }
{
    if op == Op::Present {
        let presence = presence(a.undef, a.numbers());
        Fact::new(false, a.over, Some(presence))
    } else {
        fact_of_ranges(op, a.undef, a.over, a.numbers(), Some(zero_alone()))
    }
}

/// The results of `Present` on a value that may be undefined or a number of the interval.
fn presence(undef: bool, range: Option<Range>) -> Range
    ensures { result ≡ presence undef range }
{
    match range {
        None => zero_alone(),
        Some(_) => truth_range(true, undef),
    }
}

/// 0 alone.
fn zero_alone() -> Range
    ensures { result ≡ alone (pos 0) }
{
    alone(Amount::zero())
}

/// 0 to 1, without 0 if the test can't fail and without 1 if it can't pass.
fn truth_range(passes: bool, fails: bool) -> Range
    requires { IsTrue (passes || fails) }
    ensures { result ≡ truths passes fails }
{
    let (low, high) = truths(passes, fails);
    Range {
        low: amount(low),
        high: amount(high),
    }
}

// ---- two arguments

/// The fact of an operator of two arguments.
fn fact_of_two(op: Op, a: Fact, b: Fact) -> Fact
    ensures { result ≡ fact_of_two op a b }
{
    match op {
        Op::Add | Op::Sub | Op::Or | Op::Max | Op::Min => fact_of_two_widened(op, a, b),
        _ => fact_of_ranges(
            op,
            a.undef || b.undef,
            a.over || b.over,
            a.numbers(),
            b.numbers(),
        ),
    }
}

/// The fact of an operator for which undefined counts as 0 if the other argument is a number.
fn fact_of_two_widened(op: Op, a: Fact, b: Fact) -> Fact
    ensures { result ≡ fact_of_two_widened op a b }
{
    if a.range.is_none() && b.range.is_none() {
        Fact::new(a.undef && b.undef, a.over || b.over, None)
    } else {
        fact_of_ranges(
            op,
            a.undef && b.undef,
            a.over || b.over,
            widened(a),
            widened(b),
        )
    }
}

/// The possible numbers, if undefined counts as 0.
fn widened(fact: Fact) -> Option<Range>
    ensures { result ≡ widened fact }
{
    if fact.undef {
        join(Some(zero_alone()), fact.numbers())
    } else {
        fact.numbers()
    }
}

// ---- the two operators that select

/// The fact of a truth.
fn truth_fact(a: Fact) -> Fact
    ensures { result ≡ truth_fact a }
{
    let truths = truths_of(a.undef || a.over, a.numbers());
    Fact::new(false, false, Some(truths))
}

/// The truth of a value that, by `other`, may be something else than a number.
fn truths_of(other: bool, range: Option<Range>) -> Range
    ensures { result ≡ truths_of other range }
{
    match range {
        None => zero_alone(),
        Some(range) => truth_range(has_other(range), other || has_zero(range)),
    }
}

/// The fact of a choice: of the first branch if the condition may be a number other than 0, of the
/// second if it may be 0.
fn choice(c: Fact, a: Fact, b: Fact) -> Fact
    ensures { result ≡ choice c a b }
{
    match branches(c.may_be_other(), c.may_be_zero(), a, b) {
        None => Fact::new(c.undef, c.over, None),
        Some(taken) => Fact::new(
            c.undef || taken.undef,
            c.over || taken.over,
            taken.numbers(),
        ),
    }
}

/// The fact of the branches that may be taken, if one may be.
fn branches(first: bool, second: bool, a: Fact, b: Fact) -> Option<Fact>
    ensures { result ≡ branches first second a b }
{
    if first && second {
        Some(either(a, b))
    } else if first {
        Some(a)
    } else if second {
        Some(b)
    } else {
        None
    }
}

/// The fact of a value that is one or the other.
fn either(a: Fact, b: Fact) -> Fact
    ensures { result ≡ either a b }
{
    let range = join(a.numbers(), b.numbers());
    Fact::new(a.undef || b.undef, a.over || b.over, range)
}
