//! A fact, and what follows from it.
ghost use Rattle.std.specs.Prelude.{◌≡◌, ◌||◌, IsTrue, is_some};
ghost use Rattle.definedness.specs.Facts.{Possible, IsFact, fact_of_value, fact_of_input, over_alone, one_value, is_number, lacks_zero};
ghost use Rattle.definedness.specs.Ranges.{may_be_zero, may_be_other};

use crate::range::{LEAST, MOST, Range, alone, amount, has_other, has_zero};
use m_fixed::{Amount, Value};
use std::marker::Model;

/// A set of possible values: `undef` and `over` are whether undefined and Over are possible, and
/// `range` is the least and the greatest possible number, or `None` if no number is possible. At
/// least one value is possible. For a sum of two inputs undefined, Over and every amount are.
#[derive(Clone, Copy, Debug)]
pub struct Fact {
    /// Undefined is possible.
    pub undef: bool,
    /// Over is possible.
    pub over: bool,
    /// The least and the greatest possible number, or `None`.
    pub range: Option<(Amount, Amount)>,
}

impl Model for Fact {
    ghost use Rattle.definedness.specs.Facts.{Possible, IsFact};

    ghost Value = { Possible };

    ghost view = { λ f. record { undef = f.undef; over = f.over; range = f.range } };

    ghost invariant = { λ f. IsFact (record { undef = f.undef; over = f.over; range = f.range }) };

    ghost inverse = { λ p. record { undef = p.undef; over = p.over; range = p.range } };
}

impl Fact {
    /// The fact of these values, of which there is at least one.
    pub(crate) fn new(undef: bool, over: bool, range: Option<Range>) -> Fact
        requires { IsTrue (undef || over || is_some range) }
        ensures { result ≡ record { undef = undef; over = over; range = range } }
    {
        match range {
            None => Fact {
                undef,
                over,
                range: None,
            },
            Some(range) => Fact {
                undef,
                over,
                range: Some((range.low, range.high)),
            },
        }
    }

    /// The only possible value, if there is only one: `Value::Undef` if only undefined is possible.
    pub fn one_value(self) -> Option<Value>
        ensures { result ≡ one_value self }
    {
        match self.range {
            None => {
                if self.undef == self.over {
                    None
                } else if self.undef {
                    Some(Value::Undef)
                } else {
                    Some(Value::Over)
                }
            }
            Some((low, high)) => {
                if self.undef || self.over || low != high {
                    None
                } else {
                    Some(Value::Num(low))
                }
            }
        }
    }

    /// The possible numbers.
    pub(crate) fn numbers(self) -> Option<Range>
        ensures { result ≡ self.range }
    {
        match self.range {
            None => None,
            Some((low, high)) => Some(Range { low, high }),
        }
    }

    /// Whether only numbers are possible.
    pub fn is_number(self) -> bool
        ensures { result ≡ is_number self }
    {
        !self.undef && !self.over
    }

    /// Whether numbers are possible, and none of them is 0.
    pub fn lacks_zero(self) -> bool
        ensures { result ≡ lacks_zero self }
    {
        self.range.is_some() && !self.may_be_zero()
    }

    /// Whether 0 is possible.
    pub fn may_be_zero(self) -> bool
        ensures { result ≡ may_be_zero self.range }
    {
        match self.numbers() {
            None => false,
            Some(range) => has_zero(range),
        }
    }

    /// Whether a number other than 0 is possible.
    pub fn may_be_other(self) -> bool
        ensures { result ≡ may_be_other self.range }
    {
        match self.numbers() {
            None => false,
            Some(range) => has_other(range),
        }
    }
}

/// The fact of a literal: only its value is possible.
pub fn fact_of_value(value: Value) -> Fact
    ensures { result ≡ fact_of_value value }
{
    match value {
        Value::Undef => Fact::new(true, false, None),
        Value::Over => over_alone(),
        Value::Num(x) => Fact::new(false, false, Some(alone(x))),
    }
}

/// The fact of an input: undefined or any amount.
pub fn fact_of_input() -> Fact
    ensures { result ≡ fact_of_input }
{
    let all = Range {
        low: amount(LEAST),
        high: amount(MOST),
    };
    Fact::new(true, false, Some(all))
}

/// The fact of which only Over is possible.
pub(crate) fn over_alone() -> Fact
    ensures { result ≡ over_alone }
{
    Fact::new(false, true, None)
}
