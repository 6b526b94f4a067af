ghost use Rattle.std.specs.Prelude.{◌≡◌, ◌++◌, ◌∷◌, [], OnOk, if◌then◌else◌};

use std::alloc::AllocError;

/// A finding about a rule base, true for all households. The number is that of a cell, of a check
/// of the base, or of an input.
#[derive(Clone, Copy, Debug, PartialEq, Eq)]
pub enum Finding {
    /// The cell is read, belongs to no input or constant, and has no definition: it is always
    /// undefined.
    NeverDefined(u32),
    /// Whatever the inputs are, the check's label neither stops a run nor is noted.
    NeverStops(u32),
    /// Whatever the inputs are, the observation doesn't depend on this one.
    Unused(u32),
}

/// Appends a finding if the test holds.
pub(crate) fn add_if(
    is_so: bool,
    finding: Finding,
    findings: &mut Vec<Finding>,
) -> Result<(), AllocError>
    ensures { OnOk result (findings.new.items ≡ findings.old.items ++ (if is_so then finding ∷ [] else [])) }
{
    if is_so {
        findings.push(finding)?;
    }
    Ok(())
}
