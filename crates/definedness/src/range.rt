//! Intervals of amounts, by their ends.
ghost use Rattle.std.specs.Prelude.{◌≡◌, ◌≤ℤ◌};
ghost use Rattle.std.specs.Int.{int_max, int_min};
ghost use Rattle.m_fixed.specs.Amounts.{IsAmount};
ghost use Rattle.definedness.specs.Ranges.{alone, has_zero, has_other, hull, join, cut_to_amounts, leaves_amounts};
ghost use Rattle.definedness.specs.inner.Limits.{limited};

use m_fixed::Amount;
use std::marker::Model;

/// The greatest amount, in millionths.
pub(crate) const MOST: i128 = 10_000_000_000_000_000_000;

/// The least amount, in millionths.
pub(crate) const LEAST: i128 = -10_000_000_000_000_000_000;

/// The amounts from the least to the greatest, which are at least one.
#[derive(Clone, Copy)]
pub(crate) struct Range {
    pub(crate) low: Amount,
    pub(crate) high: Amount,
}

impl Model for Range {
    ghost use Rattle.std.specs.Prelude.{ℤ};
    ghost use Rattle.definedness.specs.Ranges.{IsInterval};

    ghost Value = { ℤ × ℤ };

    ghost view = { λ r. (r.low, r.high) };

    ghost invariant = { λ r. IsInterval (r.low, r.high) };

    ghost inverse = { λ r. record { low = r.0; high = r.1 } };
}

impl Range {
    /// The order of an interval's ends.
    pub(crate) fn shows_order(self)
        ensures { self.0 ≤ℤ self.1 }
    {
        let _ = &self.low;
    }
}

/// The amount of this number of millionths.
pub(crate) fn amount(millionths: i128) -> Amount
    requires { IsAmount millionths }
    ensures { result ≡ millionths }
{
    match Amount::new(millionths) {
        Some(amount) => amount,
        None => unreachable!(),
    }
}

/// The interval of one amount.
pub(crate) fn alone(x: Amount) -> Range
    ensures { result ≡ alone x }
{
    let x = amount(x.millionths());
    Range { low: x, high: x }
}

/// Whether the interval contains 0.
pub(crate) fn has_zero(range: Range) -> bool
    ensures { result ≡ has_zero range }
{
    range.low.millionths() <= 0 && 0 <= range.high.millionths()
}

/// Whether the interval contains a number other than 0.
pub(crate) fn has_other(range: Range) -> bool
    ensures { result ≡ has_other range }
{
    range.low.millionths() < 0 || 0 < range.high.millionths()
}

/// The least interval that contains two.
fn hull(a: Range, b: Range) -> Range
    ensures { result ≡ hull a b }
{
    Range {
        low: lesser(a.low, b.low),
        high: greater(a.high, b.high),
    }
}

/// The least interval that contains those that exist.
pub(crate) fn join(a: Option<Range>, b: Option<Range>) -> Option<Range>
    ensures { result ≡ join a b }
{
    match a {
        None => b,
        Some(x) => match b {
            None => a,
            Some(y) => Some(hull(x, y)),
        },
    }
}

/// The greater of two amounts.
pub(crate) fn greater(x: Amount, y: Amount) -> Amount
    ensures { result ≡ int_max x y }
{
    if y.millionths() < x.millionths() {
        x
    } else {
        y
    }
}

/// The lesser of two amounts.
pub(crate) fn lesser(x: Amount, y: Amount) -> Amount
    ensures { result ≡ int_min x y }
{
    if y.millionths() < x.millionths() {
        y
    } else {
        x
    }
}

/// The amounts from `low` to `high`, if there are any.
pub(crate) fn cut_to_amounts(low: i128, high: i128) -> Option<Range>
    requires { limited low ≤ℤ limited high }
    ensures { result ≡ cut_to_amounts (low, high) }
{
    if high < LEAST || MOST < low {
        return None;
    }
    Some(Range {
        low: amount(LEAST.max(low)),
        high: amount(high.min(MOST)),
    })
}

/// Whether some number from `low` to `high` is beyond the amounts.
pub(crate) fn leaves_amounts(low: i128, high: i128) -> bool
    ensures { result ≡ leaves_amounts (low, high) }
{
    low < LEAST || MOST < high
}
