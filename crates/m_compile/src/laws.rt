//! Laws of the definitions: a source, or rule files alone, is valid in one way or has one fault,
//! never both.
ghost use Rattle.std.specs.Prelude.{◌≡◌, ℕ, List, Option};
ghost use Rattle.m_places.specs.declared.source.Source.{Source};
ghost use Rattle.m_places.specs.declared.source.Text.{Text};
ghost use Rattle.m_symbols.specs.Declarations.{Declared};
ghost use Rattle.micro_m.specs.declared.base.Base.{Base};
ghost use Rattle.micro_m.specs.Reads.{HasNoCycle};
ghost use Rattle.driver_core.specs.declared.program.Core.{Core};
ghost use Rattle.rule_base.specs.Base.{IsBaseOf};
ghost use Rattle.m_compile.specs.Sources.{HasRules, IsValid};
ghost use Rattle.m_compile.specs.Faults.{IsBaseFault, IsSourceFault, AreOneSourceFault};
ghost use Rattle.m_compile.specs.declared.fault.SourceFault.{SourceFault};

/// A valid source has one set of declarations, one base, one driver or none, and one list of
/// requested cells.
pub fn one_validity()
    ensures { (source : Source) (declared others : Declared) (base other : Base) (written another : Option Core) (requests wanted : List ℕ) →
        IsValid source declared base written requests → IsValid source others other another wanted →
        (declared ≡ others) × (base ≡ other) × (written ≡ another) × (requests ≡ wanted) }
{}

/// A valid source has no fault.
pub fn no_valid_and_fault()
    ensures { (source : Source) (declared : Declared) (base : Base) (written : Option Core) (requests : List ℕ) (fault : SourceFault) →
        IsValid source declared base written requests → IsSourceFault source fault → ⊥ }
{}

/// A source has at most one fault, except that any cycle of cells or of functions may be the one
/// reported.
pub fn one_fault()
    ensures { (source : Source) (fault other : SourceFault) → IsSourceFault source fault → IsSourceFault source other → AreOneSourceFault fault other }
{}

/// The rule files of a source have one set of declarations, and one base over it.
pub fn one_rules()
    ensures { (source : Source) (declared others : Declared) (base other : Base) →
        HasRules source declared base → HasRules source others other → (declared ≡ others) × (base ≡ other) }
{}

/// Rule files with a base without a cycle have no fault.
pub fn no_base_and_base_fault()
    ensures { (texts : List Text) (application : List ℕ) (declared : Declared) (base : Base) (fault : SourceFault) →
        IsBaseOf texts application declared base → HasNoCycle base → IsBaseFault texts application fault → ⊥ }
{}

/// Rule files have at most one fault, except that any cycle of cells may be the one reported.
pub fn one_base_fault()
    ensures { (texts : List Text) (application : List ℕ) (fault other : SourceFault) →
        IsBaseFault texts application fault → IsBaseFault texts application other → AreOneSourceFault fault other }
{}

/// A fault of a source's rule files is one of the source, so a valid source has a base.
pub fn base_fault_of_source()
    ensures { (source : Source) (fault : SourceFault) → IsBaseFault source.texts source.application fault → IsSourceFault source fault }
{}
