ghost use Rattle.std.specs.Prelude.{◌≡◌, ◌<◌, [], length, IfOk};
ghost use Rattle.std.specs.List.{AllByRecursion};
ghost use Rattle.household.specs.Household.{inputs_of, values_of};

use crate::Household;
use m_fixed::Value;
use std::alloc::{AllocError, Global};

/// The value that a household gives each of `inputs` inputs, by number: its amount, or `Undef` if
/// the household has no pair for it. Its only error is running out of memory.
pub fn values(alloc: Global, household: &Household, inputs: u32) -> Result<Vec<Value>, AllocError>
    requires { AllByRecursion (λ input. input < inputs) (inputs_of household.now.pairs) }
    ensures { IfOk result (λ v. v.items ≡ values_of household.now.pairs inputs) }
{
    let mut values = vec![in alloc; Value::Undef; inputs as usize]?;
    put_amounts(household, &mut values);
    Ok(values)
}

/// The same, written over a list with an element for each input. Takes no memory.
///
/// A household with the pair (1, 5) turns a list of three values into `Undef`, `Num 5` and `Undef`.
pub fn values_into(household: &Household, values: &mut [Value])
    requires { AllByRecursion (λ input. input < length values.old) (inputs_of household.now.pairs) }
    ensures { values.new ≡ values_of household.now.pairs (length values.old) }
{
    values.fill(Value::Undef);
    put_amounts(household, values);
}

// Writes the amounts of a household into undefined values. For an input with several pairs the
// first one is used.
fn put_amounts(household: &Household, values: &mut [Value])
    requires inputs { AllByRecursion (λ input. input < length values.old) (inputs_of household.now.pairs) }
    requires empty { values.old ≡ values_of [] (length values.old) }
    ensures { values.new ≡ values_of household.now.pairs (length values.old) }
{
    let pairs = household.pairs.as_slice();
    let mut left = pairs.len();
    while left > 0 {
        left -= 1;
        let pair = pairs[left];
        values[pair.input() as usize] = Value::Num(pair.amount());
    }
}
