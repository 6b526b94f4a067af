//! The state of a builder: its nodes in the table that shares them, and the fact of each.
ghost use Rattle.std.specs.Prelude.{◌≡◌, ◌<◌, false, [], ◌∷◌, ◌++◌, length, take, IfOk, OnOk, OnErr};
ghost use Rattle.definedness.specs.Facts.{IsFact};
ghost use Rattle.flat_code.specs.Runs.{entry_of, entries_of, IsNode};
ghost use Rattle.flat_code.specs.Entries.{node_at, entry_at};
ghost use Rattle.flat_code.specs.Facts.{facts};
ghost use Rattle.flat_code.specs.Tidy.{IsNormal, IsOpen, has_form};
ghost use Rattle.common_terms.specs.Numbers.{IsEntered};
ghost use Rattle.fold_terms.specs.Drafts.{AddsAnswer};
ghost use Rattle.fold_terms.specs.inner.Built.{IsBuilt, Longer, Extends};

use crate::known::KnownFacts;
use common_terms::NodeTable;
use definedness::{Fact, fact_of, fact_of_input, fact_of_value};
use flat_code::Node;
use std::alloc::AllocError;

/// Folded nodes, each stored once, and the fact of each.
#[derive(Drop)]
pub struct Parts {
    pub inputs: u32,
    pub nodes: NodeTable,
    pub facts: KnownFacts,
}

/// The fact itself, with its invariant available to the caller's proof.
pub fn opened(fact: Fact) -> Fact
    ensures is { result ≡ fact }
    ensures fact { IsFact result }
{
    let _possible = fact.undef;
    fact
}

impl Parts {
    /// The node with this number.
    pub fn node_at(&self, k: u32) -> Node
        requires { k < length self.now.nodes }
        ensures { result ≡ node_at self.now.nodes k }
    {
        self.nodes.at(k)
    }

    /// The fact of the node with this number.
    pub fn fact_at(&self, k: u32) -> Fact
        requires built { IsBuilt self.now.inputs self.now.nodes self.now.facts }
        requires within { k < length self.now.nodes }
        ensures { result ≡ entry_at facts self.now.nodes k }
    {
        self.facts.at(k)
    }

    /// The fact of a new node, from the facts of its arguments.
    pub fn fact_of_node(&self, node: &Node) -> Fact
        requires built { IsBuilt self.now.inputs self.now.nodes self.now.facts }
        requires node { IsNode self.now.inputs (length self.now.nodes) node.now }
        ensures is { result ≡ entry_of facts (entries_of facts self.now.nodes) node.now }
        ensures fact { IsFact result }
    {
        match *node {
            Node::Input(_) => opened(fact_of_input()),
            Node::Lit(value) => opened(fact_of_value(value)),
            Node::Do(op, a, b, c) => {
                opened(fact_of(op, self.fact_at(a), self.fact_at(b), self.fact_at(c)))
            }
        }
    }

    // The number of the equal node, which is added if there is none. Afterwards there may be one
    // more fact than nodes.
    fn note(&mut self, node: Node, fact: Fact) -> Result<u32, AllocError>
        requires room { length self.old.nodes < 4_294_967_295 }
        ensures inputs { self.new.inputs ≡ self.old.inputs }
        ensures facts { Extends self.old.facts self.new.facts fact }
        ensures all_facts { OnOk result (self.new.facts ≡ self.old.facts ++ fact ∷ []) }
        ensures entered { IfOk result (IsEntered self.old.nodes self.new.nodes node) }
        ensures same { OnErr result (self.new.nodes ≡ self.old.nodes) }
    {
        self.facts.push(fact)?;
        self.nodes.find_or_add(node)
    }

    // Removes a surplus fact.
    fn cut(&mut self)
        ensures inputs { self.new.inputs ≡ self.old.inputs }
        ensures nodes { self.new.nodes ≡ self.old.nodes }
        ensures facts { self.new.facts ≡ take (length self.old.nodes) self.old.facts }
    {
        let count = self.nodes.count() as usize;
        self.facts.truncate(count);
    }

    /// The number of the equal node, which is added if there is none.
    pub fn enter(&mut self, node: Node, fact: Fact) -> Result<u32, AllocError>
        requires built { IsBuilt self.old.inputs self.old.nodes self.old.facts }
        requires room { length self.old.nodes < 4_294_967_295 }
        requires node { IsNode self.old.inputs (length self.old.nodes) node }
        requires fact { fact ≡ entry_of facts (entries_of facts self.old.nodes) node }
        requires possible { IsFact fact }
        requires normal { IsNormal node }
        requires unfixed { IsOpen node fact }
        requires formless { has_form self.old.nodes node ≡ false }
        ensures inputs { self.new.inputs ≡ self.old.inputs }
        ensures built { IsBuilt self.old.inputs self.new.nodes self.new.facts }
        ensures grows { Longer self.old.nodes self.new.nodes }
        ensures wanted { IfOk result (AddsAnswer self.old.nodes self.new.nodes) }
        ensures err { OnErr result (self.new.nodes ≡ self.old.nodes) }
        ensures within { IfOk result (λ k. k < length self.new.nodes) }
        ensures node { IfOk result (λ k. node_at self.new.nodes k ≡ node) }
    {
        let number = self.note(node, fact);
        self.cut();
        number
    }
}
