//! The tidy form.
ghost use Rattle.std.specs.Prelude.{◌≡◌, ◌≤◌, length, IfOk};
ghost use Rattle.flat_code.specs.Runs.{IsFlat};
ghost use Rattle.flat_code.specs.Passes.{Becomes};
ghost use Rattle.flat_code.specs.Tidy.{IsFolded, IsTidy};
ghost use Rattle.dead_rules.specs.inner.Firsts.{IsPruned};

use crate::compact::compacted;
use crate::firsts::firsts;
use crate::fold::folded;
use crate::mark::marked;
use crate::moved::{moved_checks, moved_outputs};
use flat_code::{Flat, Tidy};
use m_places::Seq;
use std::alloc::{AllocError, Global};

// The program without the nodes that aren't reached.
fn removed(alloc: Global, flat: Flat) -> Result<Flat, AllocError>
    requires valid { IsFlat flat }
    requires few { length flat.nodes ≤ 4_294_967_295 }
    requires folded { IsFolded flat.nodes }
    ensures becomes { IfOk result (Becomes flat) }
    ensures pruned { IfOk result IsPruned }
{
    let live = marked(alloc, &flat)?;
    let kept = compacted(alloc, flat.inputs, flat.nodes.into_vec(), &live)?;
    let checks = moved_checks(alloc, &kept.numbers, flat.checks.as_slice())?;
    let outputs = moved_outputs(alloc, &kept.numbers, flat.outputs.as_slice())?;
    let mut nodes = kept.nodes;
    nodes.shrink_to_fit();
    Ok(Flat {
        inputs: flat.inputs,
        nodes: Seq::from_vec(nodes),
        checks: Seq::from_vec(checks),
        outputs: Seq::from_vec(outputs),
    })
}

// The program without duplicate checks.
fn sifted(alloc: Global, flat: Flat) -> Result<Flat, AllocError>
    requires valid { IsFlat flat }
    requires few { length flat.checks ≤ 4_294_967_295 }
    requires pruned { IsPruned flat }
    ensures becomes { IfOk result (Becomes flat) }
    ensures tidy { IfOk result IsTidy }
{
    let checks = firsts(alloc, flat.checks.as_slice())?;
    Ok(Flat {
        inputs: flat.inputs,
        nodes: flat.nodes,
        checks: Seq::from_vec(checks),
        outputs: flat.outputs,
    })
}

/// The program in the tidy form. It has the same answer for all plain inputs (each undefined or an
/// amount), the same numbers of inputs and outputs, no more nodes and checks, and no other labels.
/// The only error is running out of memory. Takes one step for each node, check and output. The
/// program must have fewer nodes, and fewer checks, than 2^32, since `u32` numbers them.
///
/// Of the nodes `Input(0)`, `Lit(1 unit)` and `Do(Op::Mul, 0, 1, 0)`, with the last as output, only
/// the first remains.
pub fn tidy(alloc: Global, flat: &Flat) -> Result<Tidy, AllocError>
    requires valid { IsFlat flat.now }
    requires few { length flat.now.nodes ≤ 4_294_967_295 }
    requires few_checks { length flat.now.checks ≤ 4_294_967_295 }
    ensures becomes { IfOk result (Becomes flat.now) }
    ensures tidy { IfOk result IsTidy }
{
    let folded = folded(alloc, flat)?;
    let pruned = removed(alloc, folded)?;
    let flat = sifted(alloc, pruned)?;
    Ok(Tidy::new(flat))
}
