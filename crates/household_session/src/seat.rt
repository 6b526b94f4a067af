//! The initial amounts of a session.
ghost use Rattle.std.specs.Prelude.{◌≡◌, ◌<◌, []};
ghost use Rattle.std.specs.List.{AllByRecursion};
ghost use Rattle.household.specs.Household.{inputs_of, values_of};
ghost use Rattle.household_session.specs.Seats.{noted_pairs};

use household::Household;
use m_fixed::Value;
use value_sheet::Sheet;

/// Writes a household's amounts into a sheet whose inputs are all undefined.
pub(crate) fn put_all(sheet: &mut Sheet, household: &Household)
    requires none { sheet.old.now ≡ values_of [] sheet.old.flat.inputs }
    requires inputs { AllByRecursion (λ input. input < sheet.old.flat.inputs) (inputs_of household.now.pairs) }
    ensures { sheet.new ≡ record sheet.old { now = values_of household.now.pairs sheet.old.flat.inputs; put = noted_pairs household.now.pairs sheet.old.put } }
{
    let pairs = household.pairs.as_slice();
    let mut left = pairs.len();
    while left > 0 {
        left -= 1;
        let pair = pairs[left];
        sheet.put(pair.input(), Value::Num(pair.amount()));
    }
}
