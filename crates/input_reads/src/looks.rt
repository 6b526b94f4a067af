//! Which arguments a node uses.
ghost use Rattle.std.specs.Prelude.{◌≡◌};
ghost use Rattle.input_reads.specs.Reads.{is_open, looks_at_second, looks_at_third};

use definedness::Fact;
use m_fixed::{Op, arity};

/// Whether more than one value is possible.
pub fn is_open(fact: Fact) -> bool
    ensures { result ≡ is_open fact }
{
    fact.one_value().is_none()
}

/// Whether an operator uses its second argument, given the fact of the first.
pub fn looks_at_second(op: Op, first: Fact) -> bool
    ensures { result ≡ looks_at_second op first }
{
    match op {
        Op::Choose => first.may_be_other(),
        _ => arity(op) > 1,
    }
}

/// Whether an operator uses its third argument, given the fact of the first.
pub fn looks_at_third(op: Op, first: Fact) -> bool
    ensures { result ≡ looks_at_third op first }
{
    match op {
        Op::Choose => first.may_be_zero(),
        _ => false,
    }
}
