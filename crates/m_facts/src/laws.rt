//! Laws of the findings. Each function does nothing: its contract is the law. They hold for every
//! function `observe` that gives, for all values of the inputs, the observation of the program's
//! run; so they hold for the answers of a source.
ghost use Rattle.std.specs.Prelude.{◌≡◌, ◌+◌, ℕ, List, Some, length};
ghost use Rattle.std.specs.List.{AllByRecursion};
ghost use Rattle.m_fixed.specs.declared.amount.Value.{Value};
ghost use Rattle.definedness.specs.Facts.{Possible};
ghost use Rattle.observables.specs.declared.face.Face.{Face};
ghost use Rattle.observables.specs.Answers.{Observation, observation};
ghost use Rattle.observables.specs.Inputs.{AreValuesOf};
ghost use Rattle.observables.specs.Outputs.{notes_of};
ghost use Rattle.flat_code.specs.declared.program.Flat.{Flat};
ghost use Rattle.flat_code.specs.Faces.{IsFaceOf};
ghost use Rattle.flat_code.specs.Runs.{IsFlat, flat_run};
ghost use Rattle.input_reads.specs.Reads.{depends_on};
ghost use Rattle.micro_m.specs.declared.base.Base.{Base};
ghost use Rattle.m_facts.specs.Found.{known_of, node_of, found_of};
ghost use Rattle.m_facts.specs.Lines.{named_facts};
ghost use Rattle.m_facts.specs.Truths.{ArePossible, IsSilent, DependsOn};

/// Every value reported to a household within the facts is possible by the printed fact of its
/// cell.
pub fn values_are_possible()
    ensures { (base : Base) (flat : Flat) (face : Face) (given : List Possible) (observe : List Value → Observation) → IsFlat flat → IsFaceOf face flat
        → ((vs : List Value) → AreValuesOf face.inputs vs → observation face.labels (notes_of face.outputs) (flat_run flat vs) ≡ Some (observe vs))
        → ArePossible face.inputs given observe (named_facts face.outputs (found_of base flat face given).possible) }
{}

/// The label of a check that never stops is reported to no household within the facts.
pub fn silent_checks_never_stop()
    ensures { (base : Base) (flat : Flat) (face : Face) (given : List Possible) (observe : List Value → Observation) → IsFlat flat → IsFaceOf face flat
        → ((vs : List Value) → AreValuesOf face.inputs vs → observation face.labels (notes_of face.outputs) (flat_run flat vs) ≡ Some (observe vs))
        → AllByRecursion (IsSilent base face.inputs given observe) (found_of base flat face given).silent }
{}

/// If two households within the facts agree on the inputs on which a requested cell may depend, and
/// neither run stops, both are given the same value of the cell. `place` counts the reported
/// values; the outputs of notes come before them, so the cell's output is numbered `place` plus the
/// number of notes.
pub fn dependences_suffice()
    ensures { (flat : Flat) (face : Face) (given : List Possible) (observe : List Value → Observation) (place k : ℕ) → IsFlat flat → IsFaceOf face flat
        → ((vs : List Value) → AreValuesOf face.inputs vs → observation face.labels (notes_of face.outputs) (flat_run flat vs) ≡ Some (observe vs))
        → k ≡ length (notes_of face.outputs) + place
        → DependsOn face.inputs given observe place (depends_on (known_of flat given) flat.nodes flat.inputs (node_of flat.outputs k)) }
{}
