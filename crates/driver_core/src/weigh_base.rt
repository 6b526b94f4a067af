//! The weight of terms and of a base.

ghost use Rattle.std.specs.Prelude.{◌≡◌, ◌+◌, ◌*◌};
ghost use Rattle.driver_core.specs.Weights.{tree_weight, trees_weight, steps_weight, read_weight};
ghost use Rattle.driver_core.specs.Weights.{definition_weight, check_weight, base_weight};
ghost use Rattle.std.specs.List.{sum_by};
ghost use Rattle.micro_m.specs.Leaves.{written, all_written, along_written};
ghost use Rattle.micro_m.specs.Views.{trees_of, steps_of};
ghost use Rattle.driver_core.specs.inner.Capped.{capped};

use crate::CLeaf;
use micro_m::{Base, Leaf, MNode, MTerm, Step};

/// A leaf that has a weight.
pub trait Weighed: Leaf {
    /// The weight of the leaf.
    fn weigh(&self) -> u64
        ensures { result ≡ capped (tree_weight (Self.leaf_tree self.now)) };
}

impl Weighed for u32 {
    fn weigh(&self) -> u64 {
        1
    }
}

impl Weighed for CLeaf {
    fn weigh(&self) -> u64 {
        match self {
            CLeaf::Cell(_) => 1,
            CLeaf::Exists(cells) => cells.len().saturating_mul(2).saturating_add(1),
        }
    }
}

/// The weight of a term.
#[cycle(trees)]
pub fn weigh_tree<L: Weighed>(term: &MTerm<L>) -> u64
    ensures { result ≡ capped (tree_weight (written L.leaf_tree term.now)) }
{
    match &term.node {
        MNode::Lit(_) => 1,
        MNode::Cell(leaf) => leaf.weigh(),
        MNode::Pick(_, size, index) => read_at(*size, index, weigh_tree(index)),
        MNode::Apply(_, arguments) => weigh_trees(arguments).saturating_add(1),
        MNode::Chain(first, steps) => weigh_tree(first).saturating_add(weigh_steps(steps)),
    }
}

#[cycle(trees)]
fn weigh_trees<L: Weighed>(arguments: &[MTerm<L>]) -> u64
    ensures { result ≡ capped (trees_weight (all_written L.leaf_tree (trees_of arguments.now))) }
{
    let mut total: u64 = 0;
    for argument in arguments {
        total = total.saturating_add(weigh_tree(argument));
    }
    total
}

#[cycle(trees)]
fn weigh_steps<L: Weighed>(steps: &[Step<L>]) -> u64
    ensures { result ≡ capped (steps_weight (along_written L.leaf_tree (steps_of steps.now))) }
{
    let mut total: u64 = 0;
    for step in steps {
        total = total.saturating_add(weigh_tree(&step.term).saturating_add(1));
    }
    total
}

/// The weight of a term of the base.
fn weigh_rule(term: &MTerm) -> u64
    ensures { result ≡ capped (tree_weight term.now) }
{
    weigh_tree(term)
}

/// The weight of a read of a table of this size at an index of this weight.
fn read_at<L: Leaf>(size: u32, index: &MTerm<L>, weight: u64) -> u64
    ensures { result ≡ capped (read_weight size (written L.leaf_tree index.now) weight) }
{
    match index.literal() {
        Some(_) => weight.saturating_add(1),
        None => weight.saturating_add(2 * size as u64).saturating_add(2),
    }
}

/// The weight of a base.
pub fn weigh_base(base: &Base) -> u64
    ensures { result ≡ capped (base_weight base.now) }
{
    weigh_definitions(base).saturating_add(weigh_checks(base))
}

fn weigh_definitions(base: &Base) -> u64
    ensures { result ≡ capped (sum_by definition_weight base.now.definitions) }
{
    let mut total: u64 = 0;
    for (_, term, _) in base.definitions.as_slice() {
        total = total.saturating_add(weigh_rule(term).saturating_add(1));
    }
    total
}

fn weigh_checks(base: &Base) -> u64
    ensures { result ≡ capped (sum_by check_weight base.now.checks) }
{
    let mut total: u64 = 0;
    for (condition, _, _) in base.checks.as_slice() {
        total = total.saturating_add(weigh_rule(condition).saturating_add(1));
    }
    total
}
