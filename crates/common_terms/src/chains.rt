//! The hash table. The nodes of a bucket form a linked list, its chain: each link has the number of
//! the previous node of the bucket.
//!
//! Each node is stored once, in the vector of all nodes; the table adds eight bytes for each node
//! (hash and link) and four for each bucket. An `indexmap` would keep a second copy of the nodes.
ghost use Rattle.std.specs.Prelude.{◌≡◌, ℕ, ◌+◌, ◌%◌, ◌<◌, ◌≤◌, true, false, ◌∷◌, [], ◌++◌, length, take, IfSome, IfNone, IfOk, OnOk, OnErr, slice_index_or};
ghost use Rattle.flat_code.specs.Entries.{node_at};
ghost use Rattle.common_terms.specs.Numbers.{IsAbsent, IsEntered};
ghost use Rattle.common_terms.specs.inner.Chains.{node_hash, link_at, bucket_of, AreChained, IsTable};

use crate::Key;
use flat_code::Node;
use std::alloc::{AllocError, Global};

/// The hash of a node, and one more than the number of the previous node in its bucket, or 0 if
/// there is none.
#[derive(Clone, Copy)]
pub struct Link {
    pub hash: u32,
    pub next: u32,
}

/// The nodes, the link of each, and for each bucket one more than the number of its last node, or
/// 0. After an error there may be one more link than nodes.
#[derive(Drop)]
pub struct Chains {
    pub alloc: Global,
    pub key: Key,
    pub nodes: Vec<Node>,
    pub links: Vec<Link>,
    pub heads: Vec<u32>,
}

// The bucket of a hash.
fn bucket(hash: u32, buckets: usize) -> usize
    requires { 0 < buckets }
    ensures is { result ≡ hash % buckets }
    ensures within { result < buckets }
{
    hash as usize % buckets
}

// Links node i into its chain. All nodes before it are linked.
fn chain(links: &mut [Link], heads: &mut [u32], i: usize)
    requires within { i < length links.old }
    requires small { i < 4_294_967_295 }
    requires some { 0 < length heads.old }
    requires chained { AreChained links.old heads.old i }
    ensures chained { AreChained links.new heads.new (i + 1) }
    ensures links { length links.new ≡ length links.old }
    ensures heads { length heads.new ≡ length heads.old }
    ensures hashes { (j : ℕ) → (link_at links.new j).hash ≡ (link_at links.old j).hash }
{
    let hash = links[i].hash;
    let place = bucket(hash, heads.len());
    links[i] = Link {
        hash,
        next: heads[place],
    };
    heads[place] = (i + 1) as u32;
}

// Links the first `count` nodes into chains that are all empty.
fn chain_all(links: &mut [Link], heads: &mut [u32], count: usize)
    requires within { count ≤ length links.old }
    requires small { count ≤ 4_294_967_295 }
    requires some { 0 < length heads.old }
    requires empty { (b : ℕ) → b < length heads.old → slice_index_or heads.old b 0 ≡ 0 }
    ensures chained { AreChained links.new heads.new count }
    ensures links { length links.new ≡ length links.old }
    ensures heads { length heads.new ≡ length heads.old }
    ensures hashes { (j : ℕ) → (link_at links.new j).hash ≡ (link_at links.old j).hash }
{
    for i in 0..count {
        chain(links, heads, i);
    }
}

// Appends a value.
fn append<T: Copy>(list: &mut Vec<T>, value: &T) -> Result<(), AllocError>
    ensures ok { OnOk result (list.new.items ≡ list.old.items ++ value.now ∷ []) }
    ensures err { OnErr result (list.new.items ≡ list.old.items) }
{
    list.push(*value)?;
    Ok(())
}

impl Chains {
    // Whether node i equals this one; the hashes are compared first.
    fn is_here(&self, i: u32, node: &Node, hash: u32) -> bool
        requires table { IsTable self.now.key self.now.nodes.items self.now.links.items self.now.heads.items }
        requires within { i < length self.now.nodes.items }
        requires hash { hash ≡ node_hash self.now.key node.now }
        ensures yes { result ≡ true → node_at self.now.nodes.items i ≡ node.now }
        ensures no { result ≡ false → node_at self.now.nodes.items i ≡ node.now → ⊥ }
    {
        self.links[i as usize].hash == hash && self.nodes[i as usize] == *node
    }

    // The number of the equal node, if there is one.
    fn find(&self, node: &Node, hash: u32) -> Option<u32>
        requires table { IsTable self.now.key self.now.nodes.items self.now.links.items self.now.heads.items }
        requires hash { hash ≡ node_hash self.now.key node.now }
        ensures some { IfSome result (λ k. (k < length self.now.nodes.items) × (node_at self.now.nodes.items k ≡ node.now)) }
        ensures none { IfNone result (IsAbsent self.now.nodes.items node.now) }
    {
        if self.heads.is_empty() {
            return None;
        }
        let mut left = self.heads[bucket(hash, self.heads.len())];
        while left > 0 {
            let i = left - 1;
            if self.is_here(i, node, hash) {
                return Some(i);
            }
            left = self.links[i as usize].next;
        }
        None
    }

    // Rebuilds the table with four times as many buckets if there are as many nodes as buckets.
    fn make_room(&mut self) -> Result<(), AllocError>
        requires table { IsTable self.old.key self.old.nodes.items self.old.links.items self.old.heads.items }
        requires few { length self.old.nodes.items < 4_294_967_295 }
        ensures key { self.new.key ≡ self.old.key }
        ensures nodes { self.new.nodes.items ≡ self.old.nodes.items }
        ensures table { IsTable self.new.key self.new.nodes.items self.new.links.items self.new.heads.items }
        ensures room { OnOk result (length self.new.nodes.items < length self.new.heads.items) }
    {
        let count = self.nodes.len();
        if count < self.heads.len() {
            return Ok(());
        }
        let mut heads = vec![in self.alloc; 0; 4 * count + 8]?;
        chain_all(&mut self.links, &mut heads, count);
        self.heads = heads;
        Ok(())
    }

    // Appends a node that isn't in the table.
    fn add(&mut self, node: &Node, hash: u32) -> Result<u32, AllocError>
        requires table { IsTable self.old.key self.old.nodes.items self.old.links.items self.old.heads.items }
        requires few { length self.old.nodes.items < 4_294_967_295 }
        requires room { length self.old.nodes.items < length self.old.heads.items }
        requires hash { hash ≡ node_hash self.old.key node.now }
        ensures key { self.new.key ≡ self.old.key }
        ensures table { IsTable self.new.key self.new.nodes.items self.new.links.items self.new.heads.items }
        ensures number { IfOk result (λ k. k ≡ length self.old.nodes.items) }
        ensures ok { OnOk result (self.new.nodes.items ≡ self.old.nodes.items ++ node.now ∷ []) }
        ensures err { OnErr result (self.new.nodes.items ≡ self.old.nodes.items) }
    {
        let count = self.nodes.len();
        self.links.truncate(count);
        append(&mut self.links, &Link { hash, next: 0 })?;
        append(&mut self.nodes, node)?;
        chain(&mut self.links, &mut self.heads, count);
        Ok(count as u32)
    }

    // Appends a node that isn't in the table, and returns its number.
    fn enter(&mut self, node: &Node, hash: u32) -> Result<u32, AllocError>
        requires table { IsTable self.old.key self.old.nodes.items self.old.links.items self.old.heads.items }
        requires few { length self.old.nodes.items < 4_294_967_295 }
        requires hash { hash ≡ node_hash self.old.key node.now }
        requires absent { IsAbsent self.old.nodes.items node.now }
        ensures key { self.new.key ≡ self.old.key }
        ensures table { IsTable self.new.key self.new.nodes.items self.new.links.items self.new.heads.items }
        ensures entered { IfOk result (IsEntered self.old.nodes.items self.new.nodes.items node.now) }
        ensures err { OnErr result (self.new.nodes.items ≡ self.old.nodes.items) }
    {
        self.make_room()?;
        self.add(node, hash)
    }

    /// The number of the equal node, which is added if there is none.
    pub fn find_or_add(&mut self, node: &Node) -> Result<u32, AllocError>
        requires table { IsTable self.old.key self.old.nodes.items self.old.links.items self.old.heads.items }
        requires few { length self.old.nodes.items < 4_294_967_295 }
        ensures key { self.new.key ≡ self.old.key }
        ensures table { IsTable self.new.key self.new.nodes.items self.new.links.items self.new.heads.items }
        ensures entered { IfOk result (IsEntered self.old.nodes.items self.new.nodes.items node.now) }
        ensures err { OnErr result (self.new.nodes.items ≡ self.old.nodes.items) }
    {
        let hash = self.key.hash_of(node);
        if let Some(number) = self.find(node, hash) {
            return Ok(number);
        }
        self.enter(node, hash)
    }
}
