//! Input codes, and the household for them.
ghost use Rattle.std.specs.Prelude.{◌≡◌, Ok, Err, IfOk, length};
ghost use Rattle.m_places.specs.Refusals.{Outcome};
ghost use Rattle.m_names.specs.Names.{AreDistinct};
ghost use Rattle.observables.specs.Inputs.{codes_of};
ghost use Rattle.household.specs.Household.{AreInputs, AreOfTypes, household_of};
ghost use Rattle.household.specs.declared.fault.HouseholdFault.TheVariants.{Memory};
ghost use Rattle.code_answers.specs.Shown.{IsRunnableCode};

use code_file::Loaded;
use household::{Codes, Household, HouseholdFault, read_household};
use observables::Coded;
use std::alloc::{AllocError, Global};

/// The codes of these inputs, and the household of these bytes for them. `count` is the number of the inputs.
pub fn read_given(
    alloc: Global,
    inputs: &[Coded],
    count: u32,
    household: &[u8],
) -> Result<(Codes, Household), HouseholdFault>
    requires distinct { AreDistinct (codes_of inputs.now) }
    requires count { count ≡ length inputs.now }
    ensures outcome { Outcome Memory result (λ read. household_of inputs.now household.now ≡ Ok read.1.pairs)
        (λ fault. household_of inputs.now household.now ≡ Err fault) }
    ensures codes { IfOk result (λ read. read.0 ≡ inputs.now) }
    ensures inputs { IfOk result (λ read. AreInputs (length inputs.now) read.1.pairs) }
    ensures amounts { IfOk result (λ read. AreOfTypes inputs.now read.1.pairs) }
{
    let codes = Codes::new(alloc, inputs, count)?;
    let given = read_household(alloc, household, &codes)?;
    Ok((codes, given))
}

/// The codes of the inputs of code. The only error is out of memory.
pub(crate) fn codes_by(alloc: Global, loaded: &Loaded) -> Result<Codes, AllocError>
    requires { IsRunnableCode loaded.now }
    ensures { IfOk result (λ codes. codes ≡ loaded.now.face.inputs) }
{
    Codes::new(alloc, loaded.face.inputs.as_slice(), loaded.code.inputs())
}
