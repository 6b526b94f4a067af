//! The inputs on which requested nodes may depend.
ghost use Rattle.std.specs.Prelude.{◌≡◌, ◌<◌, ◌≤◌, ◌++◌, IfOk, OnOk, length, map};
ghost use Rattle.std.specs.List.{AllByRecursion};
ghost use Rattle.flat_code.specs.Runs.{AreNodes};
ghost use Rattle.input_reads.specs.Reads.{depends_on};

use crate::lists::{add_lists, lists_of};
use crate::spread::input_masks;
use definedness::Fact;
use flat_code::Node;
use m_places::Seq;
use std::alloc::{AllocError, Global};

/// For each requested node the inputs on which its value may depend, in ascending order, given the
/// facts of all nodes. The only error is running out of memory.
///
/// For the nodes `Input(0)`, `Input(1)` and `Do(Op::Choose, 0, 1, 1)`, of which the first is known
/// to be 1, the last depends on input 1 alone.
///
/// Takes one step for each node and each input, for every 64 requested nodes, and one for each
/// input of each result.
pub fn dependences(
    alloc: Global,
    nodes: &[Node],
    inputs: u32,
    known: &[Fact],
    wanted: &[u32],
) -> Result<Seq<Seq<u32>>, AllocError>
    requires nodes { AreNodes inputs 0 nodes.now }
    requires known { length known.now ≡ length nodes.now }
    requires wanted { AllByRecursion (λ p. p < length nodes.now) wanted.now }
    ensures { IfOk result (λ found. found ≡ map (depends_on known.now nodes.now inputs) wanted.now) }
{
    let mut found = Vec::with_capacity(alloc, wanted.len())?;
    let mut from = 0;
    while from < wanted.len() {
        let to = from + group_of(wanted.len() - from);
        add_group(alloc, nodes, inputs, known, &wanted[from..to], &mut found)?;
        from = to;
    }
    Ok(Seq::from_vec(found))
}

// The size of the next group, at most 64.
fn group_of(left: usize) -> usize
    requires { 0 < left }
    ensures some { 0 < result }
    ensures within { result ≤ left }
    ensures few { result ≤ 64 }
{
    left.min(64)
}

// Appends the results of a group of at most 64 requested nodes.
fn add_group(
    alloc: Global,
    nodes: &[Node],
    inputs: u32,
    known: &[Fact],
    wanted: &[u32],
    found: &mut Vec<Seq<u32>>,
) -> Result<(), AllocError>
    requires nodes { AreNodes inputs 0 nodes.now }
    requires known { length known.now ≡ length nodes.now }
    requires few { length wanted.now ≤ 64 }
    requires wanted { AllByRecursion (λ p. p < length nodes.now) wanted.now }
    ensures { OnOk result (found.new.items ≡ found.old.items ++ map (depends_on known.now nodes.now inputs) wanted.now) }
{
    let masks = input_masks(alloc, nodes, inputs, known, wanted)?;
    let lists = lists_of(alloc, &masks, wanted.len())?;
    add_lists(lists, found)
}
