//! The table of nodes.
ghost use Rattle.std.specs.Prelude.{◌≡◌, ◌<◌, [], length, IfOk, OnErr};
ghost use Rattle.flat_code.specs.Entries.{node_at};
ghost use Rattle.common_terms.specs.Numbers.{AreApart, IsEntered};

use crate::chains::Chains;
use crate::{Key, NodesDigest};
use flat_code::Node;
use std::alloc::{AllocError, Global};
use std::marker::Model;

/// Distinct nodes, numbered from 0. Contracts see them as their list.
#[derive(Drop)]
pub struct NodeTable {
    chains: Chains,
}

impl Model for NodeTable {
    ghost use Rattle.std.specs.Prelude.{List, ◌<◌, ◌^◌, length};
    ghost use Rattle.flat_code.specs.declared.program.Node.{Node};
    ghost use Rattle.common_terms.specs.Numbers.{AreApart};
    ghost use Rattle.common_terms.specs.inner.Chains.{IsTable};

    ghost Value = { List Node };

    ghost view = { λ t. t.chains.nodes.items };

    ghost invariant = { λ t. (length t.chains.nodes.items < 2 ^ 32) × AreApart t.chains.nodes.items
        × IsTable t.chains.key t.chains.nodes.items t.chains.links.items t.chains.heads.items };
}

impl NodeTable {
    /// An empty table. Takes no memory.
    ///
    /// Its key is public. If the nodes come from an untrusted source, use `NodeTable::under` with a
    /// key that is derived from them.
    pub fn new(alloc: Global) -> NodeTable
        ensures { result ≡ [] }
    {
        NodeTable::under(alloc, NodesDigest::new().key())
    }

    /// An empty table that hashes nodes under this key. Takes no memory.
    pub fn under(alloc: Global, key: Key) -> NodeTable
        ensures { result ≡ [] }
    {
        NodeTable {
            chains: Chains {
                alloc,
                key,
                nodes: Vec::new(alloc),
                links: Vec::new(alloc),
                heads: Vec::new(alloc),
            },
        }
    }

    /// The number of nodes. Takes no memory.
    pub fn count(&self) -> u32
        ensures { result ≡ length self.now }
    {
        self.chains.nodes.len() as u32
    }

    /// The node with this number. Takes no memory.
    pub fn at(&self, number: u32) -> Node
        requires { number < length self.now }
        ensures { result ≡ node_at self.now number }
    {
        self.chains.nodes[number as usize]
    }

    /// The nodes in the order of their numbers. Takes no memory.
    pub fn into_nodes(self) -> Vec<Node>
        ensures { result.items ≡ self }
    {
        let NodeTable { chains } = self;
        chains.nodes
    }

    /// The number of the equal node; if there is none, the node is added with the next number. The
    /// only error is running out of memory, and then the table is unchanged.
    pub fn find_or_add(&mut self, node: Node) -> Result<u32, AllocError>
        requires room { length self.old < 4_294_967_295 }
        ensures entered { IfOk result (IsEntered self.old self.new node) }
        ensures apart { AreApart self.new }
        ensures err { OnErr result (self.new ≡ self.old) }
    {
        self.chains.find_or_add(&node)
    }
}
