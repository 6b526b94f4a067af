//! Products, quotients and whole units. A 128-bit division takes ten times as long as a 64-bit one,
//! and a 64-bit one as long as all the rest. So products are divided in two 64-bit parts, and
//! quotients are guessed in floating point and checked.
ghost use Rattle.std.specs.Prelude.{◌≡◌, ◌==◌, if◌then◌else◌, ◌≤◌, pos, unsigned_abs, ◌*ℤ◌, ◌+◌, ◌*◌, ◌/◌, ◌^◌, ◌<◌};
ghost use Rattle.m_fixed.specs.declared.operator.Op.TheVariants.{Arr, Inf};
ghost use Rattle.m_fixed.specs.Amounts.{IsAmount, unit, most};
ghost use Rattle.m_fixed.specs.Rounding.{rounded, signed, nearest};
ghost use Rattle.m_fixed.specs.Operators.{result_of, cut, quotient};

use crate::Amount;
use crate::amount::UNIT;
use std::num::f64_to_bits_with_nan;

/// Half a unit, in millionths.
const HALF_UNIT: u128 = 500_000;

/// The shift of `arr` away from zero, in millionths.
const ARR_SHIFT: u64 = 500_050;

/// Where a number is split for the division in two parts: 2^44.
const PART: u64 = 17_592_186_044_416;

/// Numbers below this one are divided by `UNIT` in two parts.
const TWO_PARTS: u128 = 324_518_553_658_426_726_783_156_020_576_256;

/// 2^53: numbers below it are exact as floating-point numbers.
const EXACT_AS_FLOAT: u64 = 9_007_199_254_740_992;

/// 2^52: adding it to a smaller floating-point number rounds that to a whole number, in the low 52
/// bits.
const ROUNDING: u64 = 4_503_599_627_370_496;

/// `x * y` rounded, in millionths.
pub(crate) fn product(x: i128, y: i128) -> i128
    requires x_in { IsAmount x }
    requires y_in { IsAmount y }
    ensures { result ≡ rounded (x *ℤ y) (pos unit) }
{
    in_units(exact_product(x, y))
}

/// The product of two amounts, in millionths of millionths: at most 10^38, and so below 2^127.
fn exact_product(x: i128, y: i128) -> i128
    requires x_in { IsAmount x }
    requires y_in { IsAmount y }
    ensures value { result ≡ x *ℤ y }
    ensures bound { unsigned_abs result ≤ 10 ^ 38 }
{
    x * y
}

/// `n / 1_000_000` rounded to the nearest, halves away from zero.
fn in_units(n: i128) -> i128
    requires { unsigned_abs n ≤ 10 ^ 38 }
    ensures { result ≡ rounded n (pos unit) }
{
    signed(n < 0, nearest_unit(n.unsigned_abs()))
}

/// `n / 1_000_000` rounded to the nearest, halves up.
fn nearest_unit(n: u128) -> u128
    requires { n ≤ 10 ^ 38 }
    ensures value { result ≡ nearest n unit }
    ensures bound { result ≤ 10 ^ 38 }
{
    whole_units(n + HALF_UNIT)
}

/// `n / 1_000_000`, truncated.
fn whole_units(n: u128) -> u128
    ensures { result ≡ n / unit }
{
    if n >= TWO_PARTS {
        return n / UNIT as u128;
    }
    let high = (n / PART as u128) as u64;
    let low = (n % PART as u128) as u64;
    let rest = high % UNIT * PART + low;
    (high / UNIT) as u128 * PART as u128 + (rest / UNIT) as u128
}

/// `x / y` in millionths; 0 if y is 0.
pub(crate) fn quotient(x: Amount, y: Amount) -> i128
    ensures { result ≡ quotient x y }
{
    let size = nearest_quotient(x.size(), y.size());
    signed(x.is_negative() != y.is_negative(), size)
}

/// `size / by` in millionths, rounded to the nearest, halves up; 0 if `by` is 0. The guess is right
/// if its remainder is less than the divisor; only otherwise is there a division.
fn nearest_quotient(size: u64, by: u64) -> u128
    requires size_in { size ≤ most }
    requires by_in { by ≤ most }
    ensures value { result ≡ (if by == 0 then 0 else nearest (size * unit) by) }
    ensures bound { result ≤ 10 ^ 38 }
{
    let n = size as u128 * (2 * UNIT) as u128 + by as u128;
    let d = 2 * by as u128;
    let guess = guessed(size, by);
    let rest = n.wrapping_sub((2 * guess) as u128 * by as u128);
    if rest < d {
        guess as u128
    } else {
        divided(n, d)
    }
}

/// Usually the whole number nearest to `size * 1_000_000 / by`. That is tested, not proved: no
/// caller relies on it.
fn guessed(size: u64, by: u64) -> u64
    ensures { result < 2 ^ 52 }
{
    if size < EXACT_AS_FLOAT && by < EXACT_AS_FLOAT {
        let quotient = size as f64 * 1_000_000.0 / by as f64;
        f64_to_bits_with_nan(quotient + ROUNDING as f64) % ROUNDING
    } else {
        0
    }
}

/// `n / d`, truncated; 0 if `d` is 0.
fn divided(n: u128, d: u128) -> u128
    ensures { result ≡ (if d == 0 then 0 else n / d) }
{
    if d == 0 { 0 } else { n / d }
}

/// A size with a sign.
fn signed(negative: bool, size: u128) -> i128
    requires { size ≤ 10 ^ 38 }
    ensures { result ≡ signed negative size }
{
    if negative {
        -(size as i128)
    } else {
        size as i128
    }
}

/// Moved away from zero by 0.50005 and truncated to whole units, in millionths.
pub(crate) fn nearest_units(x: Amount) -> i128
    ensures { result ≡ result_of Arr x (pos 0) }
{
    let size = (x.size() + ARR_SHIFT) / UNIT * UNIT;
    signed(x.is_negative(), size as u128)
}

/// The greatest whole number of units not above the amount plus a millionth, in millionths.
pub(crate) fn units_not_above(x: Amount) -> i128
    ensures { result ≡ result_of Inf x (pos 0) }
{
    let size = x.size();
    if x.is_negative() {
        let above = (size - 1 + (UNIT - 1)) / UNIT * UNIT;
        -(above as i128)
    } else {
        let below = (size + 1) / UNIT * UNIT;
        below as i128
    }
}

/// The amount truncated toward zero, in units.
pub(crate) fn cut(x: Amount) -> i64
    ensures { result ≡ cut x }
{
    let units = (x.size() / UNIT) as i64;
    if x.is_negative() { -units } else { units }
}
