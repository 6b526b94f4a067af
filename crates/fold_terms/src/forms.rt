//! The seven simplifications of operator nodes.
ghost use Rattle.std.specs.Prelude.{◌≡◌, ◌<◌, false, length, IfSome, IfNone};
ghost use Rattle.flat_code.specs.Runs.{IsNode};
ghost use Rattle.flat_code.specs.Tidy.{has_form};
ghost use Rattle.fold_terms.specs.Drafts.{Denotes};
ghost use Rattle.fold_terms.specs.inner.Built.{IsBuilt};

use crate::parts::Parts;
use crate::simple::{
    choice_of, is_decided, is_test_node, is_unit_literal, is_zero_literal, literal, opposite_of,
};
use flat_code::Node;
use m_fixed::Op;

impl Parts {
    // A sum with 0 is its other term.
    fn simple_sum(&self, a: u32, b: u32, c: u32) -> Option<u32>
        requires built { IsBuilt self.now.inputs self.now.nodes self.now.facts }
        requires node { IsNode self.now.inputs (length self.now.nodes) (Node.Do Op.Add a b c) }
        ensures some { IfSome result (Denotes self.now.nodes (Node.Do Op.Add a b c)) }
        ensures none { IfNone result (has_form self.now.nodes (Node.Do Op.Add a b c) ≡ false) }
    {
        if is_zero_literal(self.node_at(b)) && !self.fact_at(a).undef {
            return Some(a);
        }
        if is_zero_literal(self.node_at(a)) && !self.fact_at(b).undef {
            return Some(b);
        }
        None
    }

    // A difference that subtracts 0 is its first term.
    fn simple_difference(&self, a: u32, b: u32, c: u32) -> Option<u32>
        requires built { IsBuilt self.now.inputs self.now.nodes self.now.facts }
        requires node { IsNode self.now.inputs (length self.now.nodes) (Node.Do Op.Sub a b c) }
        ensures some { IfSome result (Denotes self.now.nodes (Node.Do Op.Sub a b c)) }
        ensures none { IfNone result (has_form self.now.nodes (Node.Do Op.Sub a b c) ≡ false) }
    {
        if is_zero_literal(self.node_at(b)) && !self.fact_at(a).undef {
            return Some(a);
        }
        None
    }

    // A product with 1 is its other factor.
    fn simple_product(&self, a: u32, b: u32, c: u32) -> Option<u32>
        requires built { IsBuilt self.now.inputs self.now.nodes self.now.facts }
        requires node { IsNode self.now.inputs (length self.now.nodes) (Node.Do Op.Mul a b c) }
        ensures some { IfSome result (Denotes self.now.nodes (Node.Do Op.Mul a b c)) }
        ensures none { IfNone result (has_form self.now.nodes (Node.Do Op.Mul a b c) ≡ false) }
    {
        if is_unit_literal(self.node_at(b)) {
            return Some(a);
        }
        if is_unit_literal(self.node_at(a)) {
            return Some(b);
        }
        None
    }

    // The opposite of an opposite is the original node.
    fn simple_opposite(&self, a: u32, b: u32, c: u32) -> Option<u32>
        requires built { IsBuilt self.now.inputs self.now.nodes self.now.facts }
        requires node { IsNode self.now.inputs (length self.now.nodes) (Node.Do Op.Neg a b c) }
        ensures some { IfSome result (Denotes self.now.nodes (Node.Do Op.Neg a b c)) }
        ensures none { IfNone result (has_form self.now.nodes (Node.Do Op.Neg a b c) ≡ false) }
    {
        opposite_of(self.node_at(a))
    }

    // The truth of a test that is always a number is the test.
    fn simple_truth(&self, a: u32, b: u32, c: u32) -> Option<u32>
        requires built { IsBuilt self.now.inputs self.now.nodes self.now.facts }
        requires node { IsNode self.now.inputs (length self.now.nodes) (Node.Do Op.Truth a b c) }
        ensures some { IfSome result (Denotes self.now.nodes (Node.Do Op.Truth a b c)) }
        ensures none { IfNone result (has_form self.now.nodes (Node.Do Op.Truth a b c) ≡ false) }
    {
        if is_test_node(self.node_at(a)) && self.fact_at(a).is_number() {
            return Some(a);
        }
        None
    }

    // A choice that always takes the same branch is this branch.
    fn simple_choice(&self, a: u32, b: u32, c: u32) -> Option<u32>
        requires built { IsBuilt self.now.inputs self.now.nodes self.now.facts }
        requires node { IsNode self.now.inputs (length self.now.nodes) (Node.Do Op.Choose a b c) }
        ensures some { IfSome result (Denotes self.now.nodes (Node.Do Op.Choose a b c)) }
        ensures none { IfNone result (has_form self.now.nodes (Node.Do Op.Choose a b c) ≡ false) }
    {
        if let Some(value) = literal(self.node_at(a)) {
            return Some(choice_of(value, a, b, c));
        }
        if is_decided(self.fact_at(a), b == c) {
            return Some(b);
        }
        None
    }

    // The existing node that an operator node simplifies to, if any.
    fn simple_operator(&self, op: Op, a: u32, b: u32, c: u32) -> Option<u32>
        requires built { IsBuilt self.now.inputs self.now.nodes self.now.facts }
        requires node { IsNode self.now.inputs (length self.now.nodes) (Node.Do op a b c) }
        ensures some { IfSome result (Denotes self.now.nodes (Node.Do op a b c)) }
        ensures none { IfNone result (has_form self.now.nodes (Node.Do op a b c) ≡ false) }
    {
        match op {
            Op::Add => self.simple_sum(a, b, c),
            Op::Sub => self.simple_difference(a, b, c),
            Op::Mul => self.simple_product(a, b, c),
            Op::Neg => self.simple_opposite(a, b, c),
            Op::Truth => self.simple_truth(a, b, c),
            Op::Choose => self.simple_choice(a, b, c),
            _ => None,
        }
    }

    /// The existing node that a node simplifies to, if any.
    pub fn simple(&self, node: &Node) -> Option<u32>
        requires built { IsBuilt self.now.inputs self.now.nodes self.now.facts }
        requires node { IsNode self.now.inputs (length self.now.nodes) node.now }
        ensures some { IfSome result (Denotes self.now.nodes node.now) }
        ensures none { IfNone result (has_form self.now.nodes node.now ≡ false) }
    {
        match *node {
            Node::Do(op, a, b, c) => self.simple_operator(op, a, b, c),
            Node::Input(_) | Node::Lit(_) => None,
        }
    }
}
