//! Laws of households and tables: their meaning by their records.
ghost use Rattle.std.specs.Prelude.{◌≡◌, ◌++◌, ℕ, ℤ, List, Ok, Err};
ghost use Rattle.std.specs.Prelude.{length};
ghost use Rattle.std.specs.List.{AllByRecursion};
ghost use Rattle.observables.specs.declared.inputs.Coded.{Coded};
ghost use Rattle.observables.specs.Inputs.{AreValuesOf};
ghost use Rattle.household.specs.Household.{IsHousehold, household_of, values_of};
ghost use Rattle.household.specs.Records.{records_of};
ghost use Rattle.household.specs.Lines.{HasNoQuote, IsLineEnd};
ghost use Rattle.household.specs.Refusals.{IsRefusedHousehold, IsRefusedTable};
ghost use Rattle.household.specs.Table.{table_of};
ghost use Rattle.household.specs.TableRows.{IsTable};
ghost use Rattle.household.specs.declared.table.Row.{Row};
ghost use Rattle.household.specs.declared.fault.HouseholdFault.{HouseholdFault};

/// Bytes are a household with these pairs exactly if their records are a header and one row for
/// each pair, no input occurs twice and the number of rows is within the limit. So the pairs are
/// unique.
pub fn one_household()
    ensures sound { (inputs : List Coded) (bytes : List ℕ) (pairs : List (ℕ × ℤ)) → household_of inputs bytes ≡ Ok pairs → IsHousehold inputs bytes pairs }
    ensures whole { (inputs : List Coded) (bytes : List ℕ) (pairs : List (ℕ × ℤ)) → IsHousehold inputs bytes pairs → household_of inputs bytes ≡ Ok pairs }
{}

/// If a prefix of bytes has no quotation mark and a line end comes next, the records of the whole
/// are those of the prefix, then those of the rest. So several workers can read parts that begin at
/// line ends.
pub fn records_in_parts()
    ensures { (front back : List ℕ) → HasNoQuote front → IsLineEnd back → records_of (front ++ back) ≡ records_of front ++ records_of back }
{}

/// Bytes are a table with these rows exactly if their records are a header of distinct codes of
/// inputs, then for each row a label and a cell for each column, and the number of rows is within
/// the limit. So the rows are unique.
pub fn one_table()
    ensures sound { (inputs : List Coded) (bytes : List ℕ) (rows : List Row) → table_of inputs bytes ≡ Ok rows → IsTable inputs bytes rows }
    ensures whole { (inputs : List Coded) (bytes : List ℕ) (rows : List Row) → IsTable inputs bytes rows → table_of inputs bytes ≡ Ok rows }
{}

/// A rejected household has the fault of its first faulty record.
pub fn first_fault()
    ensures { (inputs : List Coded) (bytes : List ℕ) (fault : HouseholdFault) → household_of inputs bytes ≡ Err fault → IsRefusedHousehold inputs bytes fault }
{}

/// A rejected table has the fault of its first faulty record, and if that is the header, of its
/// first faulty code.
pub fn first_table_fault()
    ensures { (inputs : List Coded) (bytes : List ℕ) (fault : HouseholdFault) → table_of inputs bytes ≡ Err fault → IsRefusedTable inputs bytes fault }
{}

/// The values that a valid household gives the inputs are ones that the inputs may have: each
/// amount is of its input's type. The same holds for each row of a valid table.
pub fn given_values()
    ensures household { (inputs : List Coded) (bytes : List ℕ) (pairs : List (ℕ × ℤ)) → household_of inputs bytes ≡ Ok pairs
        → AreValuesOf inputs (values_of pairs (length inputs)) }
    ensures table { (inputs : List Coded) (bytes : List ℕ) (rows : List Row) → table_of inputs bytes ≡ Ok rows
        → AllByRecursion (λ row. AreValuesOf inputs (values_of row.household.pairs (length inputs))) rows }
{}
