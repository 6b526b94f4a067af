//! The law: no step of the compiler has a fault on the generated source, and the generated household parses to its
//! pairs.
ghost use Rattle.std.specs.Prelude.{ℕ, ◌≤◌};
ghost use Rattle.m_places.specs.declared.limits.TheConstants.{LARGE};
ghost use Rattle.large_validity.specs.Valid.{IsLargeValid};

/// The generated source of `large N` is valid, and the generated household has no fault.
pub fn large_is_valid()
    ensures { (n : ℕ) → 1 ≤ n → n ≤ LARGE → IsLargeValid n }
{}
