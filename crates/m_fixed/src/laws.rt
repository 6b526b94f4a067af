//! Laws of amounts and operators. Each function does nothing: its contract is the law, proved for
//! all values and texts.
ghost use Rattle.std.specs.Prelude.{◌≡◌, ◌≢◌, ◌≤◌, ◌*◌, ◌^◌, ◌++◌, ◌⊎◌, ℕ, List, length, Some, Ok, IsFalse, ℤ, pos, ◌≤ℤ◌};
ghost use Rattle.std.specs.Int.{int_max, int_min};
ghost use Rattle.std.specs.Str.Parse.{digits_value};
ghost use Rattle.m_fixed.specs.declared.amount.Value.{Value};
ghost use Rattle.m_fixed.specs.declared.operator.Op.{Op};
ghost use Rattle.m_fixed.specs.Amounts.{IsAmount, unit};
ghost use Rattle.m_fixed.specs.Rounding.{rounded, IsNearest};
ghost use Rattle.m_fixed.specs.Operators.{op_value, arity_of};
ghost use Rattle.m_fixed.specs.Text.{text_value, amount_read, number_value, printed, millionths_of};
ghost use Rattle.m_fixed.specs.Laws.{IsValue, is_selecting, SpellsNumber, SpellsAmount};

/// A sum or difference with one undefined operand is the other operand: `a + Undef`, `Undef + a`
/// and `a - Undef` are `a`.
pub fn one_undefined_operand()
    ensures first { (a c : Value) → IsValue a → op_value Op.Add a Value.Undef c ≡ a }
    ensures second { (a c : Value) → IsValue a → op_value Op.Add Value.Undef a c ≡ a }
    ensures difference { (a c : Value) → IsValue a → op_value Op.Sub a Value.Undef c ≡ a }
{}

/// `x + 0` is not `x`: it is 0 if `x` is undefined.
pub fn zero_added_to_undefined()
    ensures zero { (c : Value) → op_value Op.Add Value.Undef (Value.Num (pos 0)) c ≡ Value.Num (pos 0) }
    ensures not_undefined { (c : Value) → op_value Op.Add Value.Undef (Value.Num (pos 0)) c ≢ Value.Undef }
{}

/// An operand that is Over makes the result Over, in every operator except `Choose` and `Truth`.
pub fn over_absorbs()
    ensures first { (op : Op) (b c : Value) → IsFalse (is_selecting op) → op_value op Value.Over b c ≡ Value.Over }
    ensures second { (op : Op) (a c : Value) → arity_of op ≡ 2 → op_value op a Value.Over c ≡ Value.Over }
{}

/// A choice ignores the branch that isn't selected, and only a number other than 0 is true.
pub fn selection_looks_no_further()
    ensures taken { (x : ℤ) (a b : Value) → x ≢ pos 0 → op_value Op.Choose (Value.Num x) a b ≡ a }
    ensures otherwise { (a b : Value) → op_value Op.Choose (Value.Num (pos 0)) a b ≡ b }
    ensures truth { (b c : Value) → op_value Op.Truth Value.Over b c ≡ Value.Num (pos 0) }
{}

/// Arguments past the arity are ignored.
pub fn further_arguments_are_ignored()
    ensures one { (op : Op) (a b c d e : Value) → arity_of op ≡ 1 → op_value op a b c ≡ op_value op a d e }
    ensures two { (op : Op) (a b c d : Value) → arity_of op ≤ 2 → op_value op a b c ≡ op_value op a b d }
{}

/// A rounded quotient is the nearest whole number, and of two equally near the one farther from
/// zero. It is the only one.
pub fn rounded_is_nearest()
    ensures nearest { (n d : ℤ) → d ≢ pos 0 → IsNearest n d (rounded n d) }
    ensures only { (n d q : ℤ) → d ≢ pos 0 → IsNearest n d q → q ≡ rounded n d }
{}

/// A number's text reads as the millionths nearest to the decimal number that it denotes.
pub fn decimals_are_rounded()
    ensures { (whole decimals : List ℕ) → IsNearest (pos (digits_value 10 (whole ++ decimals) * unit)) (pos (10 ^ length decimals))
        (pos (millionths_of whole decimals)) }
{}

/// `max` and `min` of two amounts are one of the two, and bound both.
pub fn greater_and_lesser()
    ensures greater { (x y : ℤ) (c : Value) → IsAmount x → IsAmount y → op_value Op.Max (Value.Num x) (Value.Num y) c ≡ Value.Num (int_max x y) }
    ensures above { (x y : ℤ) → (x ≤ℤ int_max x y) × (y ≤ℤ int_max x y) }
    ensures one_above { (x y : ℤ) → (int_max x y ≡ x) ⊎ (int_max x y ≡ y) }
    ensures lesser { (x y : ℤ) (c : Value) → IsAmount x → IsAmount y → op_value Op.Min (Value.Num x) (Value.Num y) c ≡ Value.Num (int_min x y) }
    ensures below { (x y : ℤ) → (int_min x y ≤ℤ x) × (int_min x y ≤ℤ y) }
    ensures one_below { (x y : ℤ) → (int_min x y ≡ x) ⊎ (int_min x y ≡ y) }
{}

/// A text has a value exactly if it has the form of a number, or of an amount, and the value is the
/// one that the form denotes.
pub fn texts_are_read_by_their_form()
    ensures number { (text : List ℕ) (n : ℕ) → number_value text ≡ Some n → SpellsNumber text n }
    ensures number_back { (text : List ℕ) (n : ℕ) → SpellsNumber text n → number_value text ≡ Some n }
    ensures amount { (text : List ℕ) (z : ℤ) → text_value text ≡ Some z → SpellsAmount text z }
    ensures amount_back { (text : List ℕ) (z : ℤ) → SpellsAmount text z → text_value text ≡ Some z }
{}

/// The printed form of an amount reads back as that amount, so different amounts print differently.
pub fn written_reads_back()
    ensures value { (z : ℤ) → IsAmount z → text_value (printed z) ≡ Some z }
    ensures read { (z : ℤ) → IsAmount z → amount_read (text_value (printed z)) ≡ Ok z }
    ensures one_form { (y z : ℤ) → IsAmount y → IsAmount z → printed y ≡ printed z → y ≡ z }
{}
