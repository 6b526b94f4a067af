//! Laws of the format, about its definitions alone.
ghost use Rattle.std.specs.Prelude.{◌≡◌, ℕ, List};
ghost use Rattle.code_file.specs.declared.fault.CodeFault.{CodeFault};
ghost use Rattle.code_file.specs.declared.loaded.Loaded.{Loaded};
ghost use Rattle.code_file.specs.Reading.{IsCodeFault, IsFormOf};

/// Bytes have at most one first fault.
pub fn one_fault()
    ensures { (bytes : List ℕ) (fault other : CodeFault) → IsCodeFault bytes fault → IsCodeFault bytes other → fault ≡ other }
{}

/// Bytes that are the form of loaded code have no fault.
pub fn no_fault_of_form()
    ensures { (bytes : List ℕ) (loaded : Loaded) (fault : CodeFault) → IsFormOf bytes loaded → IsCodeFault bytes fault → ⊥ }
{}

/// Bytes are the form of at most one loaded code.
pub fn one_form()
    ensures { (bytes : List ℕ) (one other : Loaded) → IsFormOf bytes one → IsFormOf bytes other
        → (one.code ≡ other.code) × (one.face.inputs ≡ other.face.inputs) × (one.face.labels ≡ other.face.labels) × (one.face.outputs ≡ other.face.outputs) }
{}
