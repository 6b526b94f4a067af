//! Terms after name resolution and expansion: each name is a cell, and there are no loops.

ghost use Rattle.std.specs.Prelude.{◌≡◌};
ghost use Rattle.micro_m.specs.Leaves.{literal_in};
ghost use Rattle.micro_m.specs.Views.{tree_of};

use m_fixed::{Op, Value};
use std::marker::Model;

/// A term. Contracts see it as a `TreeOf` its leaves. `MTerm` alone is a term of rules, whose leaves
/// are cells: a `Tree`.
#[cycle(term)]
#[derive(Drop)]
pub struct MTerm<L: Drop = u32> {
    pub node: MNode<L>,
}

/// The root of a term.
#[cycle(term)]
#[derive(Drop)]
pub enum MNode<L: Drop = u32> {
    /// A constant: a number from the source, or undefined for a missing `sinon`.
    Lit(Value),
    /// A leaf: in rules a cell's value.
    Cell(L),
    /// A table read at an index: the first cell, the number of cells, the index.
    Pick(u32, u32, Box<MTerm<L>>),
    /// An operator and its arguments. Missing arguments are undefined.
    Apply(Op, Vec<MTerm<L>>),
    /// A left fold: `a - b + c` is `a` and the steps `- b` and `+ c`.
    Chain(Box<MTerm<L>>, Vec<Step<L>>),
}

/// A step of a left fold: an operator and its right operand.
#[cycle(term)]
#[derive(Drop)]
pub struct Step<L: Drop = u32> {
    pub op: Op,
    pub term: MTerm<L>,
}

impl<L: Drop> Model for MTerm<L> {
    ghost use Rattle.micro_m.specs.Trees.{TreeOf, nodes};
    ghost use Rattle.micro_m.specs.inner.Coding.{coded_tree};

    ghost Value = { TreeOf L };

    ghost coded = { coded_tree L.code };

    ghost use Rattle.micro_m.specs.Views.{tree_of};

    ghost view = { λ t. tree_of t.node };

    ghost size = { nodes };

    ghost use Rattle.micro_m.specs.inner.Falls.{falls};

    ghost size_decreases = { λ a h. falls a.node };
}

impl<L: Drop> MTerm<L> {
    /// The term with this root.
    pub fn new(node: MNode<L>) -> MTerm<L>
        ensures { result ≡ tree_of node }
    {
        MTerm { node }
    }

    /// The value of a term that is a constant.
    pub fn literal(&self) -> Option<Value>
        ensures { result ≡ literal_in self.now }
    {
        match &self.node {
            MNode::Lit(value) => Some(*value),
            MNode::Cell(_) => None,
            MNode::Pick(_, _, _) => None,
            MNode::Apply(_, _) => None,
            MNode::Chain(_, _) => None,
        }
    }
}
