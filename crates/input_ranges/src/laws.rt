//! Laws of ranges: their meaning by their records.
ghost use Rattle.std.specs.Prelude.{◌≡◌, ℕ, List, Ok, Err, length};
ghost use Rattle.std.specs.List.{AllByRecursion};
ghost use Rattle.definedness.specs.Facts.{IsFact, Possible};
ghost use Rattle.observables.specs.declared.inputs.Coded.{Coded};
ghost use Rattle.household.specs.declared.fault.HouseholdFault.{HouseholdFault};
ghost use Rattle.input_ranges.specs.Ranges.{ranges_of};
ghost use Rattle.input_ranges.specs.RangeFiles.{AreRanges, AreRefusedRanges};

/// Bytes allow these values of the inputs exactly if their records are a header and one row for
/// each range, no input occurs twice and the number of rows is within the limit.
pub fn one_reading()
    ensures sound { (inputs : List Coded) (bytes : List ℕ) (given : List Possible) → ranges_of inputs bytes ≡ Ok given → AreRanges inputs bytes given }
    ensures whole { (inputs : List Coded) (bytes : List ℕ) (given : List Possible) → AreRanges inputs bytes given → ranges_of inputs bytes ≡ Ok given }
{}

/// Rejected ranges have the fault of their first faulty record.
pub fn first_fault()
    ensures { (inputs : List Coded) (bytes : List ℕ) (fault : HouseholdFault) → ranges_of inputs bytes ≡ Err fault → AreRefusedRanges inputs bytes fault }
{}

/// Each input of valid ranges has a fact: some value is possible, and the bounds are amounts in
/// order.
pub fn each_has_a_fact()
    ensures facts { (inputs : List Coded) (bytes : List ℕ) (given : List Possible) → ranges_of inputs bytes ≡ Ok given → AllByRecursion IsFact given }
    ensures all { (inputs : List Coded) (bytes : List ℕ) (given : List Possible) → ranges_of inputs bytes ≡ Ok given → length given ≡ length inputs }
{}
