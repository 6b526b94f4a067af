//! The builder.
ghost use Rattle.std.specs.Prelude.{◌≡◌, ◌<◌, ◌≤◌, [], length, IfOk, OnErr};
ghost use Rattle.std.specs.List.{AllByRecursion};
ghost use Rattle.definedness.specs.Facts.{IsFact, one_value, fact_of_value};
ghost use Rattle.flat_code.specs.Runs.{IsNode, IsCheck, IsFlat};
ghost use Rattle.flat_code.specs.Tidy.{IsFolded};
ghost use Rattle.fold_terms.specs.Drafts.{Draft, Grows, AddsAnswer, Denotes};
ghost use Rattle.fold_terms.specs.inner.Built.{IsBuilt, Longer};

use crate::known::KnownFacts;
use crate::parts::{Parts, opened};
use crate::simple::normalised;
use common_terms::{Key, NodeTable};
use definedness::{Fact, fact_of_value};
use flat_code::{Check, Flat, Node};
use m_fixed::Value;
use m_places::Seq;
use std::alloc::{AllocError, Global};
use std::marker::Model;

// The only possible value, if there is exactly one.
fn value_alone(fact: &Fact) -> Option<Value>
    ensures { result ≡ one_value fact.now }
{
    let fact = *fact;
    fact.one_value()
}

// The fact of a literal.
fn literal_fact(value: &Value) -> Fact
    ensures is { result ≡ fact_of_value value.now }
    ensures fact { IsFact result }
{
    opened(fact_of_value(*value))
}

impl Parts {
    // The number of a node with the value of this one, which is simplified, found, or appended.
    fn push(&mut self, node: Node) -> Result<u32, AllocError>
        requires built { IsBuilt self.old.inputs self.old.nodes self.old.facts }
        requires room { length self.old.nodes < 4_294_967_295 }
        requires node { IsNode self.old.inputs (length self.old.nodes) node }
        ensures inputs { self.new.inputs ≡ self.old.inputs }
        ensures built { IsBuilt self.old.inputs self.new.nodes self.new.facts }
        ensures grows { Longer self.old.nodes self.new.nodes }
        ensures wanted { IfOk result (AddsAnswer self.old.nodes self.new.nodes) }
        ensures err { OnErr result (self.new.nodes ≡ self.old.nodes) }
        ensures denoted { IfOk result (Denotes self.new.nodes node) }
    {
        let node = normalised(node);
        let fact = self.fact_of_node(&node);
        if let Some(value) = value_alone(&fact) {
            let alone = literal_fact(&value);
            return self.enter(Node::Lit(value), alone);
        }
        if let Some(number) = self.simple(&node) {
            return Ok(number);
        }
        self.enter(node, fact)
    }
}

/// A flat program under construction. Its nodes are folded and shared at all times, also after an
/// error. Contracts see the number of inputs and the nodes.
#[derive(Drop)]
pub struct Builder {
    parts: Parts,
}

impl Model for Builder {
    ghost use Rattle.std.specs.Prelude.{◌≡◌};
    ghost use Rattle.fold_terms.specs.Drafts.{Draft};
    ghost use Rattle.fold_terms.specs.inner.Built.{IsBuilt};

    ghost Value = { Draft };

    ghost view = { λ b. record { inputs = b.parts.inputs; nodes = b.parts.nodes } };

    ghost invariant = { λ b. IsBuilt b.parts.inputs b.parts.nodes b.parts.facts };
}

impl Builder {
    /// An empty builder, for a program with this number of inputs. Takes no memory.
    ///
    /// Its key is public. If the nodes come from an untrusted source, use `Builder::under` with a
    /// key that is derived from them.
    pub fn new(alloc: Global, inputs: u32) -> Builder
        ensures { result ≡ record { inputs = inputs; nodes = [] } }
    {
        Builder {
            parts: Parts {
                inputs,
                nodes: NodeTable::new(alloc),
                facts: KnownFacts::new(alloc),
            },
        }
    }

    /// An empty builder that hashes nodes under this key. Takes no memory.
    pub fn under(alloc: Global, inputs: u32, key: Key) -> Builder
        ensures { result ≡ record { inputs = inputs; nodes = [] } }
    {
        Builder {
            parts: Parts {
                inputs,
                nodes: NodeTable::under(alloc, key),
                facts: KnownFacts::new(alloc),
            },
        }
    }

    /// The number of nodes. Takes no memory.
    pub fn count(&self) -> u32
        ensures count { result ≡ length self.now.nodes }
        ensures folded { IsFolded self.now.nodes }
    {
        self.parts.nodes.count()
    }

    /// The number of a node that has the value of this one for all plain inputs (each undefined or
    /// an amount). At most one node is appended, and then its number is the result; the old nodes
    /// are unchanged. The only error is running out of memory, and then nothing changes.
    pub fn push(&mut self, node: Node) -> Result<u32, AllocError>
        requires node { IsNode self.old.inputs (length self.old.nodes) node }
        requires room { length self.old.nodes < 4_294_967_295 }
        ensures denoted { IfOk result (Denotes self.new.nodes node) }
        ensures grows { Grows self.old self.new }
        ensures wanted { IfOk result (AddsAnswer self.old.nodes self.new.nodes) }
        ensures err { OnErr result (self.new ≡ self.old) }
        ensures folded { IsFolded self.new.nodes }
    {
        self.parts.push(node)
    }

    /// The program of these nodes, with these checks and outputs unchanged. Takes no memory.
    pub fn finish(self, checks: Vec<Check>, outputs: Vec<u32>) -> Flat
        requires checks { AllByRecursion (IsCheck (length self.nodes)) checks.items }
        requires outputs { AllByRecursion (λ output. output < length self.nodes) outputs.items }
        ensures program { result ≡ record { inputs = self.inputs; nodes = self.nodes; checks = checks.items; outputs = outputs.items } }
        ensures valid { IsFlat result }
        ensures folded { IsFolded result.nodes }
    {
        let Builder { parts } = self;
        Flat {
            inputs: parts.inputs,
            nodes: Seq::from_vec(parts.nodes.into_nodes()),
            checks: Seq::from_vec(checks),
            outputs: Seq::from_vec(outputs),
        }
    }
}
