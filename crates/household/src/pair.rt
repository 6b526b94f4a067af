//! An input and its amount, in 16 bytes: an amount alone takes as many.
ghost use Rattle.std.specs.Prelude.{◌≡◌};

use m_fixed::Amount;
use std::marker::Model;

/// The number of an input and its amount. Contracts see a pair of that number and the amount in
/// whole millionths.
#[derive(Clone, Copy, Debug, PartialEq, Eq)]
pub struct Pair {
    size: u64,
    input: u32,
    negative: bool,
}

impl Model for Pair {
    ghost use Rattle.std.specs.Prelude.{ℕ, ℤ, unsigned_abs};
    ghost use Rattle.std.specs.Int.{is_negative};
    ghost use Rattle.m_fixed.specs.Rounding.{signed};
    ghost use Rattle.household.specs.inner.Pairs.{IsSize, size_back, sign_back};

    ghost Value = { ℕ × ℤ };

    ghost view = { λ p. (p.input, signed p.negative p.size) };

    ghost invariant = { λ p. IsSize p.negative p.size };

    ghost inverse = { λ pair. record { size = unsigned_abs pair.1; input = pair.0; negative = is_negative pair.1 } };

    ghost inverse_ok = { λ p h i. record { size = size_back p.negative p.size h i; input = p.input; negative = sign_back p.negative p.size h i } };
}

impl Pair {
    /// The pair of an input's number and an amount.
    pub fn new(input: u32, amount: Amount) -> Pair
        ensures { result ≡ (input, amount) }
    {
        let millionths = amount.millionths();
        Pair {
            size: millionths.unsigned_abs() as u64,
            input,
            negative: millionths < 0,
        }
    }

    /// The number of the input.
    pub fn input(self) -> u32
        ensures { result ≡ self.0 }
    {
        self.input
    }

    /// The amount.
    pub fn amount(self) -> Amount
        ensures { result ≡ self.1 }
    {
        let size = self.size as i128;
        let millionths = if self.negative { -size } else { size };
        match Amount::new(millionths) {
            Some(amount) => amount,
            None => unreachable!(),
        }
    }
}
