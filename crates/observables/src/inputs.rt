//! The inputs of a program: their codes and types. They are in this crate because it is the lowest
//! that uses inputs.
ghost use Rattle.std.specs.Prelude.{◌≡◌};
ghost use Rattle.observables.specs.Inputs.{is_of_type, type_of};

use m_fixed::Amount;
use m_places::Name;

/// The amounts that an input admits.
#[derive(Clone, Copy, Debug, PartialEq, Eq)]
pub enum InputType {
    /// Every amount.
    Any,
    /// Whole units: 3, and not 2.5.
    Whole,
    /// 0 and 1.
    Truth,
}

/// An input: the code that households use for it, and the amounts that it admits.
#[derive(Drop)]
pub struct Coded {
    pub code: Name,
    pub kind: InputType,
}

/// The input type that a declaration's type word denotes: `BOOLEEN` is `Truth`, `ENTIER` is
/// `Whole`, and any other word is `Any`. Takes no memory.
pub fn type_of(word: &[u8]) -> InputType
    ensures { result ≡ type_of word.now }
{
    if word == b"BOOLEEN".as_slice() {
        InputType::Truth
    } else if word == b"ENTIER".as_slice() {
        InputType::Whole
    } else {
        InputType::Any
    }
}

/// Whether an amount is of a type: 2.5 is of the type `Any` alone. Takes no memory.
pub fn is_of_type(kind: InputType, amount: Amount) -> bool
    ensures { result ≡ is_of_type kind amount }
{
    match kind {
        InputType::Any => true,
        InputType::Whole => amount.millionths() % 1_000_000 == 0,
        InputType::Truth => amount.millionths() == 0 || amount.millionths() == 1_000_000,
    }
}
