//! Laws of the definitions: rule files have one base or one error, and not both.
ghost use Rattle.std.specs.Prelude.{◌≡◌, ℕ, ◌≤◌, List, length};
ghost use Rattle.m_places.specs.declared.limits.TheConstants.{CELLS, PARTS};
ghost use Rattle.m_places.specs.declared.source.Text.{Text};
ghost use Rattle.m_symbols.specs.Declarations.{Declared};
ghost use Rattle.micro_m.specs.declared.base.Base.{Base};
ghost use Rattle.micro_m.specs.Reads.{HasNoCycle};
ghost use Rattle.rule_base.specs.Base.{IsBaseOf};
ghost use Rattle.rule_base.specs.Faults.{IsRuleFault, AreOneRuleFault};
ghost use Rattle.rule_base.specs.declared.fault.RuleFault.{RuleFault};

/// The rule files of an application have at most one base, over one list of declarations.
pub fn one_base()
    ensures { (texts : List Text) (application : List ℕ) (declared others : Declared) (base other : Base) →
        IsBaseOf texts application declared base → IsBaseOf texts application others other → (declared ≡ others) × (base ≡ other) }
{}

/// Rule files with a base that has no cycle have no error.
pub fn no_base_and_fault()
    ensures { (texts : List Text) (application : List ℕ) (declared : Declared) (base : Base) (fault : RuleFault) →
        IsBaseOf texts application declared base → HasNoCycle base → IsRuleFault texts application fault → ⊥ }
{}

/// Rule files have at most one error, up to the choice of the cycle.
pub fn one_fault()
    ensures { (texts : List Text) (application : List ℕ) (fault other : RuleFault) →
        IsRuleFault texts application fault → IsRuleFault texts application other → AreOneRuleFault fault other }
{}

/// A base has at most `CELLS` cells and at most `PARTS` labels.
pub fn base_is_small()
    ensures cells { (texts : List Text) (application : List ℕ) (declared : Declared) (base : Base) →
        IsBaseOf texts application declared base → base.cells ≤ CELLS }
    ensures labels { (texts : List Text) (application : List ℕ) (declared : Declared) (base : Base) →
        IsBaseOf texts application declared base → length base.labels ≤ PARTS }
{}
