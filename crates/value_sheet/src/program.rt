//! The parts of a tidy program.
ghost use Rattle.std.specs.Prelude.{◌≡◌};
ghost use Rattle.flat_code.specs.Runs.{IsFlat};

use flat_code::{Check, Node, Tidy};

/// The number of inputs.
pub(crate) fn inputs_of(tidy: &Tidy) -> u32
    ensures { result ≡ tidy.now.inputs }
{
    tidy.flat().inputs
}

/// The nodes.
pub(crate) fn nodes_of(tidy: &Tidy) -> &[Node]
    ensures nodes { result.now ≡ tidy.now.nodes }
    ensures valid { IsFlat tidy.now }
{
    tidy.flat().nodes.as_slice()
}

/// The checks.
pub(crate) fn checks_of(tidy: &Tidy) -> &[Check]
    ensures { result.now ≡ tidy.now.checks }
{
    tidy.flat().checks.as_slice()
}

/// The node of each output.
pub(crate) fn outputs_of(tidy: &Tidy) -> &[u32]
    ensures { result.now ≡ tidy.now.outputs }
{
    tidy.flat().outputs.as_slice()
}
