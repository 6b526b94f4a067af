//! Laws of facts. Each function does nothing: its contract is the law, for all facts and values.
ghost use Rattle.std.specs.Prelude.{◌≡◌, ◌≢◌, ◌≤ℤ◌, ℤ, Some, IsTrue};
ghost use Rattle.m_fixed.specs.declared.amount.Value.{Value};
ghost use Rattle.m_fixed.specs.declared.operator.Op.{Op};
ghost use Rattle.m_fixed.specs.Laws.{IsValue};
ghost use Rattle.m_fixed.specs.Operators.{op_value, result_of};
ghost use Rattle.definedness.specs.Ranges.{InRange};
ghost use Rattle.definedness.specs.Results.{results_of, IsResult, is_exact};
ghost use Rattle.definedness.specs.Facts.{Possible, Holds, IsFact, fact_of, fact_of_value, fact_of_input, one_value};

/// If facts hold of the arguments, the operator's fact holds of its value.
pub fn operator_facts_hold()
    ensures { (op : Op) (f g k : Possible) (a b c : Value) → Holds f a → Holds g b → Holds k c → Holds (fact_of op f g k) (op_value op a b c) }
{}

/// The interval of an operator's results contains all results for numbers of the two intervals.
/// Except for quotients with 0 among the divisors it is the least such interval: its ends are
/// results. So a test that holds for all these numbers has the interval of 1 alone, and one that
/// holds for none that of 0.
pub fn results_lie_between_results()
    ensures all { (op : Op) (r s : ℤ × ℤ) (x y : ℤ) → InRange r x → InRange s y → InRange (results_of op r s) (result_of op x y) }
    ensures least { (op : Op) (r s : ℤ × ℤ) → r.0 ≤ℤ r.1 → s.0 ≤ℤ s.1 → IsTrue (is_exact op s) → IsResult op r s (results_of op r s).0 }
    ensures greatest { (op : Op) (r s : ℤ × ℤ) → r.0 ≤ℤ r.1 → s.0 ≤ℤ s.1 → IsTrue (is_exact op s) → IsResult op r s (results_of op r s).1 }
{}

/// The fact of a literal holds of its value and of no other.
pub fn literal_facts_hold()
    ensures holds { (v : Value) → Holds (fact_of_value v) v }
    ensures one { (v : Value) → one_value (fact_of_value v) ≡ Some v }
{}

/// The fact of an input holds of every value that an input may have.
pub fn input_fact_holds()
    ensures { (v : Value) → IsValue v → v ≢ Value.Over → Holds fact_of_input v }
{}

/// A fact with one possible value holds of this value and of no other.
pub fn one_value_is_all()
    ensures holds { (f : Possible) (v : Value) → one_value f ≡ Some v → Holds f v }
    ensures only { (f : Possible) (v w : Value) → Holds f v → one_value f ≡ Some w → v ≡ w }
{}

/// A fact holds of values only: a possible number is an amount.
pub fn facts_hold_of_values()
    ensures { (f : Possible) (v : Value) → IsFact f → Holds f v → IsValue v }
{}
