//! The facts of inputs that ranges give.
ghost use Rattle.std.specs.Prelude.{◌≡◌, length};
ghost use Rattle.m_places.specs.Refusals.{Says};
ghost use Rattle.m_names.specs.Names.{AreDistinct};
ghost use Rattle.observables.specs.Inputs.{codes_of};
ghost use Rattle.household.specs.declared.fault.HouseholdFault.TheVariants.{Memory as NoMemory};
ghost use Rattle.survey_commands.specs.Facts.{given_by};

use definedness::Fact;
use household::HouseholdFault;
use input_ranges::{read_ranges, type_facts};
use m_places::Seq;
use observables::Coded;
use std::alloc::Global;

/// The possible values of each of `count` inputs, by these ranges, or without ranges by the inputs' types.
pub(crate) fn given_facts(
    alloc: Global,
    inputs: &[Coded],
    count: u32,
    ranges: &Option<Seq<u8>>,
) -> Result<Seq<Fact>, HouseholdFault>
    requires distinct { AreDistinct (codes_of inputs.now) }
    requires count { count ≡ length inputs.now }
    ensures { Says NoMemory result (λ facts. facts) (given_by inputs.now ranges.now) }
{
    match ranges {
        Some(bytes) => read_ranges(alloc, bytes.as_slice(), inputs, count),
        None => Ok(type_facts(alloc, inputs)?),
    }
}
