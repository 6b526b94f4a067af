//! Inputs that aren't used.

ghost use Rattle.std.specs.Prelude.{◌≡◌, ◌++◌, false, not, IfOk, OnOk, length, map, replicate, slice_index_or};
ghost use Rattle.flat_code.specs.Runs.{IsFlat, AreNodes};
ghost use Rattle.m_lint.specs.declared.finding.Finding.TheVariants.{Unused};
ghost use Rattle.m_lint.specs.Findings.{is_unused, numbers_with};
ghost use Rattle.m_lint.specs.inner.Marks.{with_inputs};

use crate::Finding;
use crate::finding::add_if;
use flat_code::{Flat, Node};
use std::alloc::{AllocError, Global};

/// Appends the inputs that no node of the program reads.
pub(crate) fn add_unused(
    alloc: Global,
    flat: &Flat,
    findings: &mut Vec<Finding>,
) -> Result<(), AllocError>
    requires { IsFlat flat.now }
    ensures { OnOk result (findings.new.items ≡ findings.old.items ++ map Unused (numbers_with (is_unused flat.now) flat.now.inputs)) }
{
    let marks = used_marks(alloc, flat)?;
    add_unmarked(&marks, flat.inputs, findings)
}

// For each input whether a node reads it.
fn used_marks(alloc: Global, flat: &Flat) -> Result<Vec<bool>, AllocError>
    requires { IsFlat flat.now }
    ensures count { IfOk result (λ marks. length marks.items ≡ flat.now.inputs) }
    ensures marks { IfOk result (λ marks. marks.items ≡ with_inputs flat.now.nodes (replicate flat.now.inputs false)) }
{
    let mut marks = vec![in alloc; false; flat.inputs as usize]?;
    mark_inputs(flat.nodes.as_slice(), &mut marks);
    Ok(marks)
}

// Marks the inputs that nodes read.
fn mark_inputs(nodes: &[Node], marks: &mut [bool])
    requires { AreNodes (length marks.old) 0 nodes.now }
    ensures { marks.new ≡ with_inputs nodes.now marks.old }
{
    for node in nodes {
        if let Node::Input(n) = node {
            marks[*n as usize] = true;
        }
    }
}

fn add_unmarked(marks: &[bool], inputs: u32, findings: &mut Vec<Finding>) -> Result<(), AllocError>
    requires { length marks.now ≡ inputs }
    ensures { OnOk result (findings.new.items ≡ findings.old.items ++ map Unused (numbers_with (λ n. not (slice_index_or marks.now n false)) inputs)) }
{
    for n in 0..inputs {
        add_if(!marks[n as usize], Finding::Unused(n), findings)?;
    }
    Ok(())
}
