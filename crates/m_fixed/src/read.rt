//! Amounts read from text.
ghost use Rattle.std.specs.Prelude.{◌≡◌, ◌≤◌, ◌<◌, ◌*◌, ◌+◌, ◌-◌, ◌^◌, slice_index_or, length, take};
ghost use Rattle.std.specs.Prelude.{drop, min, IsTrue, IfOk, option_copied, Some, None, if◌then◌else◌, ◌==◌};
ghost use Rattle.std.specs.Str.Parse.{digits_value, starts_with_minus};
ghost use Rattle.m_fixed.specs.Amounts.{unit, most};
ghost use Rattle.m_fixed.specs.Rounding.{nearest};
ghost use Rattle.m_fixed.specs.Text.{text_value, without_minus, amount_read, number_value, number_read};
ghost use Rattle.m_fixed.specs.Text.{is_digits, only_digits, before_point, behind_point, millionths_of};

use crate::Amount;
use crate::amount::{MOST, UNIT};

/// Why a text isn't an amount.
#[derive(Clone, Copy, Debug, PartialEq, Eq)]
pub enum AmountFault {
    /// The text doesn't have the form of `-12.5`.
    NotAnAmount,
    /// It has, and the amount is beyond the greatest.
    TooGreat,
}

/// A bound for whole units: more than any amount has.
const UNITS_ABOVE: u64 = 10_000_000_000_001;

/// The amount that a text denotes: an optional minus, digits, and optionally a point and decimals.
/// It is rounded at the sixth decimal, halves away from zero: `-0.1234565` is -0.123457.
pub fn read_amount(text: &[u8]) -> Result<Amount, AmountFault>
    ensures { result ≡ amount_read (text_value text.now) }
{
    let (negative, number) = split_sign(text);
    let size = read_number(number)?;
    Ok(Amount::of_size(negative, size))
}

/// Whether the text begins with a minus, and the text without it.
fn split_sign(text: &[u8]) -> (bool, &[u8])
    ensures sign { result.0 ≡ starts_with_minus text.now }
    ensures number { result.1.now ≡ without_minus text.now }
{
    if text.len() > 0 && text[0] == b'-' {
        (true, &text[1..])
    } else {
        (false, text)
    }
}

/// The millionths that an unsigned number denotes.
fn read_number(text: &[u8]) -> Result<u64, AmountFault>
    ensures value { result ≡ number_read (number_value text.now) }
    ensures bound { IfOk result (λ size. size ≤ most) }
{
    let (whole, decimals) = split_at_point(text);
    if !is_digits(whole) {
        return Err(AmountFault::NotAnAmount);
    }
    match decimals {
        None => size(whole, b""),
        Some(decimals) => {
            if !is_digits(decimals) {
                return Err(AmountFault::NotAnAmount);
            }
            size(whole, decimals)
        }
    }
}

/// The millionths that the digits before and after a point denote.
fn size(whole: &[u8], decimals: &[u8]) -> Result<u64, AmountFault>
    requires whole_in { IsTrue (only_digits whole.now) }
    requires decimals_in { IsTrue (only_digits decimals.now) }
    ensures value { result ≡ number_read (Some (millionths_of whole.now decimals.now)) }
    ensures bound { IfOk result (λ size. size ≤ most) }
{
    let size = whole_units(whole) * UNIT + rounded_decimals(decimals);
    if size <= MOST {
        Ok(size)
    } else {
        Err(AmountFault::TooGreat)
    }
}

/// The text before the first point, and the text after it, if there is one.
fn split_at_point(text: &[u8]) -> (&[u8], Option<&[u8]>)
    ensures before { result.0.now ≡ before_point text.now }
    ensures behind { option_copied result.1 ≡ behind_point text.now }
{
    for i in 0..text.len() {
        if text[i] == b'.' {
            return (&text[..i], Some(&text[i + 1..]));
        }
    }
    (text, None)
}

/// Whether the text is one digit or more.
fn is_digits(text: &[u8]) -> bool
    ensures { result ≡ is_digits text.now }
{
    text.len() > 0 && only_digits(text)
}

/// Whether every byte is a digit.
fn only_digits(text: &[u8]) -> bool
    ensures { result ≡ only_digits text.now }
{
    text.iter().all(|byte| byte.is_ascii_digit())
}

/// The number that the digits denote, or `UNITS_ABOVE` if it is greater.
fn whole_units(whole: &[u8]) -> u64
    requires { IsTrue (only_digits whole.now) }
    ensures { result ≡ min (digits_value 10 whole.now) 10_000_000_000_001 }
{
    let mut units = 0;
    for byte in whole {
        units = (units * 10 + (*byte - b'0') as u64).min(UNITS_ABOVE);
    }
    units
}

/// The decimals in millionths, rounded at the sixth.
fn rounded_decimals(decimals: &[u8]) -> u64
    requires { IsTrue (only_digits decimals.now) }
    ensures value { result ≡ nearest (digits_value 10 decimals.now * unit) (10 ^ length decimals.now) }
    ensures bound { result ≤ unit }
{
    let mut millionths = 0;
    for place in 0..6 {
        millionths = millionths * 10 + decimal_at(decimals, place);
    }
    if decimal_at(decimals, 6) >= 5 {
        millionths + 1
    } else {
        millionths
    }
}

/// The decimal at a position; 0 after the last one.
fn decimal_at(decimals: &[u8], place: usize) -> u64
    requires { IsTrue (only_digits decimals.now) }
    ensures value { result ≡ slice_index_or decimals.now place 48 - 48 }
    ensures small { result < 10 }
{
    if place < decimals.len() {
        (decimals[place] - b'0') as u64
    } else {
        0
    }
}
