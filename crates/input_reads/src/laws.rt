//! Laws of dependences. Each function does nothing: its contract is the law.
ghost use Rattle.std.specs.Prelude.{◌≡◌, ◌<◌, ℕ, true, List, Contains, length};
ghost use Rattle.m_fixed.specs.declared.amount.Value.{Value};
ghost use Rattle.definedness.specs.Facts.{Possible};
ghost use Rattle.flat_code.specs.declared.program.Node.{Node};
ghost use Rattle.flat_code.specs.Runs.{AreNodes, node_values, value_at};
ghost use Rattle.input_reads.specs.Reads.{may_depend, depends_on};
ghost use Rattle.input_reads.specs.Steps.{Depends, AreHeld};

/// Dependences are sound: if two lists of inputs agree on those on which a node may depend, and all
/// values are possible by their facts, the node has the same value for both.
pub fn dependences_suffice()
    ensures { (known : List Possible) (nodes : List Node) (inputs p : ℕ) (before now : List Value)
        → AreNodes inputs 0 nodes → AreHeld known (node_values before nodes) → AreHeld known (node_values now nodes) → p < length nodes
        → ((n : ℕ) → Contains (depends_on known nodes inputs p) n → value_at before n ≡ value_at now n)
        → value_at (node_values before nodes) p ≡ value_at (node_values now nodes) p }
{}

/// A node may depend on an input exactly if there is a path of dependence.
pub fn dependences_are_steps()
    ensures steps { (known : List Possible) (nodes : List Node) (inputs p n : ℕ)
        → AreNodes inputs 0 nodes → Contains (depends_on known nodes inputs p) n → Depends known nodes n p }
    ensures all { (known : List Possible) (nodes : List Node) (inputs p n : ℕ)
        → AreNodes inputs 0 nodes → Depends known nodes n p → Contains (depends_on known nodes inputs p) n }
{}
