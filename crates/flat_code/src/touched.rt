//! Laws of touched nodes. Each function does nothing: its contract is the law.
ghost use Rattle.std.specs.Prelude.{◌≡◌, ◌≤◌, Bool, List, count_by, length};
ghost use Rattle.m_fixed.specs.declared.amount.Value.{Value};
ghost use Rattle.flat_code.specs.declared.program.Node.{Node};
ghost use Rattle.flat_code.specs.Touched.{of_put, touched};

/// If the inputs equal those of the last settled state, only the nodes of inputs that were set are
/// touched, and none if no input was set.
pub fn there_and_back()
    ensures { (nodes : List Node) (put : List Bool) (inputs : List Value) → touched nodes put inputs inputs ≡ count_by (of_put put) nodes }
{}

/// At most all nodes are touched.
pub fn at_most_all()
    ensures { (nodes : List Node) (put : List Bool) (before now : List Value) → touched nodes put before now ≤ length nodes }
{}
