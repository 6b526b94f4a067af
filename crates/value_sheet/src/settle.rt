//! Settling: recomputes the nodes that a change of inputs touches, in the order of their numbers.
ghost use Rattle.std.specs.Prelude.{◌≡◌, ℕ, ◌+◌, ◌<◌, ◌^◌, ◌==◌, ◌&&◌, ◌||◌, true, false, [], length, replicate, count_by, slice_set, slice_index_or};
ghost use Rattle.dirty_set.specs.Members.{is_member};
ghost use Rattle.flat_code.specs.Runs.{IsNode, AreNodes, entry_of, values_for, node_values, value_at};
ghost use Rattle.flat_code.specs.Touched.{differs, some_argument, of_put, is_touched};
ghost use Rattle.value_sheet.specs.inner.Readers.{node_at, has, IsReaders, IsInputRows};

use crate::evaluate::evaluate;
use crate::rows::Rows;
use crate::steps::Steps;
use dirty_set::Bits;
use flat_code::Node;
use m_fixed::Value;
use std::sync::ledger::Ledger;

/// A program with its edges: for each node its readers, and for each input its nodes.
#[derive(Drop)]
pub(crate) struct Graph<'a> {
    pub(crate) nodes: &'a [Node],
    pub(crate) readers: &'a Rows,
    pub(crate) input_rows: &'a Rows,
}

/// Makes the kept values those for these inputs, in one step for each touched node. Before, the
/// kept values are right except at the nodes of inputs that were set. No node is marked before or
/// after. Takes no memory.
pub(crate) fn settle_all<L: Ledger>(
    graph: &Graph,
    inputs: &[Value],
    puts: &Bits,
    kept: &mut [Value],
    marks: &mut Bits,
    steps: &mut Steps<L>,
)
    requires valid { AreNodes (length inputs.now) 0 graph.now.nodes.now }
    requires many { length graph.now.nodes.now < 2 ^ 32 }
    requires puts { length puts.now ≡ length inputs.now }
    requires readers { IsReaders graph.now.readers.now graph.now.nodes.now }
    requires input_rows { IsInputRows graph.now.input_rows.now graph.now.nodes.now (length inputs.now) }
    requires room { length kept.old ≡ length graph.now.nodes.now }
    requires right { (k : ℕ) → k < length graph.now.nodes.now → of_put puts.now (node_at graph.now.nodes.now k) ≡ false
        → value_at kept.old k ≡ entry_of (values_for inputs.now) kept.old (node_at graph.now.nodes.now k) }
    requires marks { marks.old ≡ replicate (length graph.now.nodes.now) false }
    ensures values { kept.new ≡ node_values inputs.now graph.now.nodes.now }
    ensures marks { marks.new ≡ replicate (length graph.now.nodes.now) false }
    ensures cost { steps.new ≡ steps.old
        + count_by (is_touched puts.now kept.old (node_values inputs.now graph.now.nodes.now)) graph.now.nodes.now }
{
    mark_put(puts, graph.input_rows, marks);
    let mut p = 0;
    while let Some(k) = marks.next_from(p) {
        turn(graph, inputs, kept, marks, k, steps);
        p = k + 1;
    }
}

// Recomputes a node, and marks its readers if its value has changed.
fn turn<L: Ledger>(
    graph: &Graph,
    inputs: &[Value],
    kept: &mut [Value],
    marks: &mut Bits,
    k: u32,
    steps: &mut Steps<L>,
)
    requires node { IsNode (length inputs.now) k (node_at graph.now.nodes.now k) }
    requires within { k < length graph.now.nodes.now }
    requires room { length kept.old ≡ length graph.now.nodes.now }
    requires marks { length marks.old ≡ length graph.now.nodes.now }
    requires readers { IsReaders graph.now.readers.now graph.now.nodes.now }
    ensures value { kept.new ≡ slice_set kept.old k (entry_of (values_for inputs.now) kept.old (node_at graph.now.nodes.now k)) }
    ensures marks { (j : ℕ) → is_member marks.new j ≡ (is_member (slice_set marks.old k false) j
        || (differs (value_at kept.old k) (entry_of (values_for inputs.now) kept.old (node_at graph.now.nodes.now k))
        && some_argument (λ i. i == k) (node_at graph.now.nodes.now j))) }
    ensures many { length marks.new ≡ length marks.old }
    ensures step { steps.new ≡ steps.old + 1 }
{
    marks.remove(k);
    let changed = renew(graph.nodes[k as usize], inputs, kept, k as usize, steps);
    mark_where(changed, graph.readers.row(k), marks);
}

// Recomputes the value of a node, and returns whether it has changed.
fn renew<L: Ledger>(
    node: Node,
    inputs: &[Value],
    kept: &mut [Value],
    k: usize,
    steps: &mut Steps<L>,
) -> bool
    requires node { IsNode (length inputs.now) k node }
    requires within { k < length kept.old }
    ensures value { kept.new ≡ slice_set kept.old k (entry_of (values_for inputs.now) kept.old node) }
    ensures changed { result ≡ differs (value_at kept.old k) (entry_of (values_for inputs.now) kept.old node) }
    ensures step { steps.new ≡ steps.old + 1 }
{
    let value = evaluate(node, kept, inputs, steps);
    let changed = differ(&kept[k], &value);
    kept[k] = value;
    changed
}

fn differ(a: &Value, b: &Value) -> bool
    ensures { result ≡ differs a.now b.now }
{
    a != b
}

// Marks the nodes of a row if `marked`.
fn mark_where(marked: bool, row: &[u32], marks: &mut Bits)
    requires { (k : ℕ) → has row.now k ≡ true → k < length marks.old }
    ensures marks { (k : ℕ) → is_member marks.new k ≡ (is_member marks.old k || (marked && has row.now k)) }
    ensures many { length marks.new ≡ length marks.old }
{
    if marked {
        mark_all(row, marks);
    }
}

// Marks the nodes of a row.
fn mark_all(row: &[u32], marks: &mut Bits)
    requires { (k : ℕ) → has row.now k ≡ true → k < length marks.old }
    ensures marks { (k : ℕ) → is_member marks.new k ≡ (is_member marks.old k || has row.now k) }
    ensures many { length marks.new ≡ length marks.old }
{
    for k in row {
        marks.insert(*k);
    }
}

// Marks the nodes of the inputs that were set.
fn mark_put(puts: &Bits, input_rows: &Rows, marks: &mut Bits)
    requires rows { length input_rows.now ≡ length puts.now }
    requires within { (p k : ℕ) → p < length puts.now → has (slice_index_or input_rows.now p []) k ≡ true → k < length marks.old }
    requires none { (k : ℕ) → is_member marks.old k ≡ false }
    ensures sound { (k : ℕ) → is_member marks.new k ≡ true
        → (p : ℕ) × (p < length puts.now) × (is_member puts.now p ≡ true) × (has (slice_index_or input_rows.now p []) k ≡ true) }
    ensures complete { (p k : ℕ) → is_member puts.now p ≡ true → has (slice_index_or input_rows.now p []) k ≡ true → is_member marks.new k ≡ true }
    ensures many { length marks.new ≡ length marks.old }
{
    let mut p = 0;
    while let Some(input) = puts.next_from(p) {
        mark_all(input_rows.row(input), marks);
        p = input + 1;
    }
}
