//! Amounts in few bytes.

ghost use Rattle.std.specs.Prelude.{◌≡◌};
ghost use Rattle.m_fixed.specs.Amounts.{IsAmount};
ghost use Rattle.m_fixed.specs.Rounding.{signed};

use m_fixed::Amount;
use std::marker::Model;

/// An amount as its sign and its size, in millionths: 16 bytes, where a `Value` takes 32. Contracts
/// see its millionths.
#[derive(Drop)]
pub(crate) struct PackedAmount {
    negative: bool,
    size: u64,
}

impl Model for PackedAmount {
    ghost use Rattle.std.specs.Prelude.{ℤ};
    ghost use Rattle.m_fixed.specs.Amounts.{IsAmount};
    ghost use Rattle.m_fixed.specs.Rounding.{signed};

    ghost Value = { ℤ };

    ghost view = { λ p. signed p.negative p.size };

    ghost invariant = { λ p. IsAmount (signed p.negative p.size) };
}

impl PackedAmount {
    /// An amount, packed.
    pub(crate) fn of(amount: Amount) -> PackedAmount
        ensures { result ≡ amount }
    {
        let millionths = amount.millionths();
        PackedAmount {
            negative: millionths < 0,
            size: millionths.unsigned_abs() as u64,
        }
    }

    /// The amount.
    pub(crate) fn amount(&self) -> Amount
        ensures { result ≡ self.now }
    {
        amount_of(self.negative, self.size)
    }
}

// The amount of a sign and a size, in millionths.
fn amount_of(negative: bool, size: u64) -> Amount
    requires { IsAmount (signed negative size) }
    ensures { result ≡ signed negative size }
{
    let millionths = if negative {
        -(size as i128)
    } else {
        size as i128
    };
    match Amount::new(millionths) {
        Some(amount) => amount,
        None => Amount::zero(),
    }
}
