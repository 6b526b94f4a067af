//! Laws of facts and passes. Each function does nothing: its contract is the law.
ghost use Rattle.std.specs.Prelude.{◌<◌, ℕ, List, length};
ghost use Rattle.m_fixed.specs.declared.amount.Value.{Value};
ghost use Rattle.definedness.specs.Facts.{Possible, Holds};
ghost use Rattle.flat_code.specs.declared.program.Flat.{Flat};
ghost use Rattle.flat_code.specs.Runs.{IsFlat, node_values, value_at};
ghost use Rattle.flat_code.specs.Entries.{entry_at};
ghost use Rattle.flat_code.specs.Facts.{facts, facts_with, ArePlain, AreWithin};
ghost use Rattle.flat_code.specs.Passes.{Becomes};

/// Facts are sound: each node's value is possible by its fact, for all inputs within the given
/// facts, and, without facts of inputs, for all plain inputs (each undefined or an amount).
pub fn facts_hold()
    ensures within { (given : List Possible) (flat : Flat) (inputs : List Value) (p : ℕ) → IsFlat flat → AreWithin given inputs → p < length flat.nodes
        → Holds (entry_at (facts_with given) flat.nodes p) (value_at (node_values inputs flat.nodes) p) }
    ensures all { (flat : Flat) (inputs : List Value) (p : ℕ) → IsFlat flat → ArePlain inputs → p < length flat.nodes
        → Holds (entry_at facts flat.nodes p) (value_at (node_values inputs flat.nodes) p) }
{}

/// The composition of two passes is a pass.
pub fn passes_compose()
    ensures { (first second third : Flat) → Becomes first second → Becomes second third → Becomes first third }
{}
