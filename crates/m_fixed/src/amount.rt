//! Amounts and values. Contracts see an amount as its number of millionths.
ghost use Rattle.std.specs.Prelude.{◌≡◌, SomeIff, pos, ◌≤◌, unsigned_abs};
ghost use Rattle.std.specs.Int.{is_negative};
ghost use Rattle.m_fixed.specs.Amounts.{IsAmount, most};
ghost use Rattle.m_fixed.specs.Rounding.{signed};
ghost use Rattle.m_fixed.specs.Operators.{truth};

use std::marker::Model;

/// One unit, in millionths.
pub(crate) const UNIT: u64 = 1_000_000;

/// The greatest absolute value of an amount, in millionths.
pub(crate) const MOST: u64 = 10_000_000_000_000_000_000;

/// An amount: a whole number of millionths, with an absolute value of at most 10^19.
#[derive(Clone, Copy, Debug, PartialEq, Eq)]
pub struct Amount {
    millionths: i128,
}

impl Model for Amount {
    ghost use Rattle.std.specs.Prelude.{ℤ};
    ghost use Rattle.m_fixed.specs.Amounts.{IsAmount};

    ghost Value = { ℤ };

    ghost view = { λ a. a.millionths };

    ghost invariant = { λ a. IsAmount a.millionths };

    ghost inverse = { λ z. record { millionths = z } };
}

impl Amount {
    /// The amount of this many millionths, or `None` if their absolute value is above 10^19:
    /// `Amount::new(1_500_500)` is 1.5005.
    pub fn new(millionths: i128) -> Option<Amount>
        ensures { SomeIff result (IsAmount millionths) millionths }
    {
        if millionths < -(MOST as i128) || millionths > MOST as i128 {
            return None;
        }
        Some(Amount { millionths })
    }

    /// 0.
    pub fn zero() -> Amount
        ensures { result ≡ pos 0 }
    {
        Amount { millionths: 0 }
    }

    /// 1 if the test holds, else 0.
    pub(crate) fn of_test(test: bool) -> Amount
        ensures { result ≡ truth test }
    {
        Amount {
            millionths: if test { UNIT as i128 } else { 0 },
        }
    }

    /// An amount from its sign and its absolute value, in millionths.
    pub(crate) fn of_size(negative: bool, size: u64) -> Amount
        requires { size ≤ most }
        ensures { result ≡ signed negative size }
    {
        let size = size as i128;
        Amount {
            millionths: if negative { -size } else { size },
        }
    }

    pub(crate) fn is_negative(self) -> bool
        ensures { result ≡ is_negative self }
    {
        self.millionths < 0
    }

    /// The absolute value, in millionths.
    pub(crate) fn size(self) -> u64
        ensures value { result ≡ unsigned_abs self }
        ensures bound { result ≤ most }
    {
        self.millionths.unsigned_abs() as u64
    }

    /// The amount in millionths.
    pub fn millionths(self) -> i128
        ensures value { result ≡ self }
        ensures bound { IsAmount result }
    {
        self.millionths
    }
}

/// The value of a term of M: `2 * REV` is undefined if `REV` isn't given, and over if the product
/// is beyond the greatest amount.
#[derive(Clone, Copy, Debug, PartialEq, Eq)]
pub enum Value {
    /// Not given.
    Undef,
    /// An amount.
    Num(Amount),
    /// A result beyond the greatest amount.
    Over,
}
