//! Laws of findings. Each function does nothing: its contract is the law.

ghost use Rattle.std.specs.Prelude.{◌≡◌, ℕ, List, Some, true, ◌⊎◌};
ghost use Rattle.std.specs.List.{AllByRecursion};
ghost use Rattle.m_fixed.specs.declared.amount.Value.{Value};
ghost use Rattle.observables.specs.declared.face.Face.{Face};
ghost use Rattle.observables.specs.Answers.{Observation, observation};
ghost use Rattle.observables.specs.Inputs.{AreValuesOf};
ghost use Rattle.observables.specs.Outputs.{notes_of};
ghost use Rattle.flat_code.specs.declared.program.Flat.{Flat};
ghost use Rattle.flat_code.specs.Faces.{IsFaceOf};
ghost use Rattle.flat_code.specs.Runs.{IsFlat, flat_run};
ghost use Rattle.m_symbols.specs.Declarations.{Declared};
ghost use Rattle.micro_m.specs.declared.base.Base.{Base};
ghost use Rattle.micro_m.specs.Bases.{terms_of};
ghost use Rattle.m_lint.specs.Readings.{conditions_of, is_read};
ghost use Rattle.m_lint.specs.Findings.{findings_of};
ghost use Rattle.m_lint.specs.Truths.{AreRead, IsTrueFinding};

/// Each finding is true of any observation function that the program implements: one that, for
/// every list of input values, equals the program's run as read through its face.
pub fn findings_are_true()
    ensures { (declared : Declared) (base : Base) (flat : Flat) (face : Face) (observe : List Value → Observation) → IsFlat flat → IsFaceOf face flat
        → ((given : List Value) → AreValuesOf face.inputs given → observation face.labels (notes_of face.outputs) (flat_run flat given) ≡ Some (observe given))
        → AllByRecursion (IsTrueFinding declared base face.inputs observe) (findings_of declared base flat face) }
{}

/// The test whether a cell is read agrees with the relation.
pub fn reads_agree()
    ensures sound { (base : Base) (c : ℕ) → is_read base c ≡ true → AreRead (terms_of base) c ⊎ AreRead (conditions_of base) c }
    ensures complete { (base : Base) (c : ℕ) → AreRead (terms_of base) c ⊎ AreRead (conditions_of base) c → is_read base c ≡ true }
{}
