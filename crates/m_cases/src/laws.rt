//! A law of tables of cases: their meaning by their records.
ghost use Rattle.std.specs.Prelude.{◌≡◌, ℕ, List, Ok};
ghost use Rattle.observables.specs.declared.inputs.Coded.{Coded};
ghost use Rattle.m_cases.specs.CaseRows.{IsCaseTable};
ghost use Rattle.m_cases.specs.Cases.{cases_made, cases_of};
ghost use Rattle.m_cases.specs.declared.cases.Case.{Case};
ghost use Rattle.m_cases.specs.declared.cases.Cases.{Cases};

/// Bytes are these cases exactly if their records are a header of distinct codes of inputs and
/// names of outputs, then for each case a label and a cell for each column, and the number of cases
/// is within the limit. So the cases are unique.
pub fn one_table_of_cases()
    ensures sound { (inputs : List Coded) (names : List (List ℕ)) (bytes : List ℕ) (made : Cases) → cases_of inputs names bytes ≡ Ok made
        → (cases : List Case) × (made ≡ cases_made cases) × IsCaseTable inputs names bytes cases }
    ensures whole { (inputs : List Coded) (names : List (List ℕ)) (bytes : List ℕ) (cases : List Case) → IsCaseTable inputs names bytes cases
        → cases_of inputs names bytes ≡ Ok (cases_made cases) }
{}
