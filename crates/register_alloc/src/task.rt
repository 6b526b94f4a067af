//! The program to allocate, with the last read of each node.

ghost use Rattle.std.specs.Prelude.{◌≡◌, ℕ, suc, ◌<◌, ◌≤◌, ◌+◌, true, IfOk, OnOk, length, nat_lt, slice_index, slice_index_or, IfSome, IfNone, if◌then◌else◌};
ghost use Rattle.flat_code.specs.Entries.{node_at};
ghost use Rattle.register_alloc.specs.Width.{reads, check_reads};
ghost use Rattle.register_alloc.specs.inner.Valid.{IsValid};
ghost use Rattle.register_alloc.specs.inner.OutputChain.{IsNext};
ghost use Rattle.register_alloc.specs.inner.Last.{IsLast};
ghost use Rattle.register_alloc.specs.inner.Sound.{live_at, IsSettled};

use crate::chain::{OutputChain, chain_of};
use crate::moment::Moment;
use flat_code::{Check, Flat, Node};
use std::alloc::{AllocError, Global};
use std::marker::Model;

/// A flat program with the last reads of its nodes, so that liveness is decided in constant time.
/// Contracts see the program.
#[derive(Drop)]
pub struct Task<'a> {
    flat: &'a Flat,
    by_node: Vec<usize>,
    by_check: Vec<usize>,
    chain: OutputChain,
}

impl<'a> Model for Task<'a> {
    ghost use Rattle.flat_code.specs.declared.program.Flat.{Flat};
    ghost use Rattle.register_alloc.specs.inner.Last.{AreLast};
    ghost use Rattle.register_alloc.specs.inner.OutputChain.{IsChain};
    ghost use Rattle.std.specs.Prelude.{length};

    ghost Value = { Flat };

    ghost view = { λ t. t.flat.now };

    ghost invariant = { λ t. AreLast t.flat.now t.by_node.items t.by_check.items
        × IsChain t.flat.now.outputs (length t.flat.now.nodes) 0 t.chain.firsts.items t.chain.nexts.items };
}

/// The node at a place.
fn node_of(flat: &Flat, place: usize) -> Node
    requires { place < length flat.now.nodes }
    ensures { result ≡ node_at flat.now.nodes place }
{
    flat.nodes.as_slice()[place]
}

/// Records a place as the last that reads a node's arguments.
fn note_node(last: &mut Vec<usize>, node: Node, place: usize)
    requires { (x : ℕ) → reads x node ≡ true → x < length last.old.items }
    ensures noted { (x : ℕ) → x < length last.old.items
        → slice_index last.new.items x ≡ (if reads x node then place else slice_index last.old.items x) }
    ensures len { length last.new.items ≡ length last.old.items }
{
    if let Node::Do(_, a, b, c) = node {
        last[a as usize] = place;
        last[b as usize] = place;
        last[c as usize] = place;
    }
}

/// Records a place as the last that reads a check's nodes.
fn note_check(last: &mut Vec<usize>, check: Check, place: usize)
    requires { (x : ℕ) → check_reads x check ≡ true → x < length last.old.items }
    ensures noted { (x : ℕ) → x < length last.old.items
        → slice_index last.new.items x ≡ (if check_reads x check then place else slice_index last.old.items x) }
    ensures len { length last.new.items ≡ length last.old.items }
{
    last[check.guard as usize] = place;
    last[check.condition as usize] = place;
}

/// For each node, one more than the last node that reads it, or 0.
fn last_by_node(alloc: Global, flat: &Flat) -> Result<Vec<usize>, AllocError>
    requires { IsValid flat.now }
    ensures { IfOk result (λ last. IsLast reads flat.now.nodes (length flat.now.nodes) last.items) }
{
    let mut last = vec![in alloc; 0; flat.nodes.as_slice().len()]?;
    for i in 0..flat.nodes.as_slice().len() {
        note_node(&mut last, node_of(flat, i), i + 1);
    }
    Ok(last)
}

/// For each node, one more than the last check that reads it, or 0.
fn last_by_check(alloc: Global, flat: &Flat) -> Result<Vec<usize>, AllocError>
    requires { IsValid flat.now }
    ensures { IfOk result (λ last. IsLast check_reads flat.now.checks (length flat.now.nodes) last.items) }
{
    let checks = flat.checks.as_slice();
    let mut last = vec![in alloc; 0; flat.nodes.as_slice().len()]?;
    for i in 0..checks.len() {
        note_check(&mut last, checks[i], i + 1);
    }
    Ok(last)
}

/// The next check, if its nodes are made.
fn ready(flat: &Flat, at: Moment) -> Option<Check>
    ensures next { IfSome result (λ _. at.checked < length flat.now.checks) }
    ensures check { IfSome result (λ check. check ≡ slice_index_or flat.now.checks at.checked check) }
    ensures guard { IfSome result (λ check. check.guard < at.made) }
    ensures condition { IfSome result (λ check. check.condition < at.made) }
    ensures none { IfNone result (IsSettled flat.now at.made at.checked) }
{
    let checks = flat.checks.as_slice();
    if at.checked >= checks.len() {
        return None;
    }
    let check = checks[at.checked];
    let guard = check.guard as usize;
    let condition = check.condition as usize;
    if guard < at.made && condition < at.made {
        Some(check)
    } else {
        None
    }
}

/// Whether a node is read at this place or later.
fn is_read_from(last: &[usize], x: usize, place: usize) -> bool
    requires { x < length last.now }
    ensures { result ≡ nat_lt place (slice_index last.now x) }
{
    place < last[x]
}

impl<'a> Task<'a> {
    pub fn new(alloc: Global, flat: &'a Flat) -> Result<Task<'a>, AllocError>
        requires { IsValid flat.now }
        ensures { IfOk result (λ task. task ≡ flat.now) }
    {
        let by_node = last_by_node(alloc, flat)?;
        let by_check = last_by_check(alloc, flat)?;
        let chain = chain_of(alloc, flat.outputs.as_slice(), flat.nodes.as_slice().len())?;
        Ok(Task {
            flat,
            by_node,
            by_check,
            chain,
        })
    }

    /// The node at a place.
    pub fn node_at(&self, place: usize) -> Node
        requires { place < length self.now.nodes }
        ensures { result ≡ node_at self.now.nodes place }
    {
        node_of(self.flat, place)
    }

    /// The number of outputs.
    pub fn outputs(&self) -> usize
        ensures { result ≡ length self.now.outputs }
    {
        self.flat.outputs.as_slice().len()
    }

    /// The first output of a node; the number of outputs, if it has none.
    pub fn first_output(&self, node: usize) -> usize
        requires { node < length self.now.nodes }
        ensures { IsNext self.now.outputs node 0 result }
    {
        self.chain.firsts[node]
    }

    /// The next output of the same node; the number of outputs, if there is none.
    pub fn next_output(&self, place: usize) -> usize
        requires { place < length self.now.outputs }
        ensures { IsNext self.now.outputs (slice_index self.now.outputs place) (suc place) result }
    {
        self.chain.nexts[place]
    }

    /// The next check, if its nodes are made.
    pub fn ready(&self, at: Moment) -> Option<Check>
        ensures next { IfSome result (λ _. at.checked < length self.now.checks) }
        ensures check { IfSome result (λ check. check ≡ slice_index_or self.now.checks at.checked check) }
        ensures guard { IfSome result (λ check. check.guard < at.made) }
        ensures condition { IfSome result (λ check. check.condition < at.made) }
        ensures none { IfNone result (IsSettled self.now at.made at.checked) }
    {
        ready(self.flat, at)
    }

    /// One more than the last node that reads a node, or 0. A heuristic: no contract depends on it.
    pub fn last_read(&self, x: usize) -> usize {
        match self.by_node.get(x) {
            Some(place) => *place,
            None => 0,
        }
    }

    /// Whether a node is live.
    pub fn is_live(&self, at: Moment, x: usize) -> bool
        requires { at.made ≤ length self.now.nodes }
        ensures { result ≡ live_at self.now at x }
    {
        if x >= at.made {
            return false;
        }
        if is_read_from(&self.by_node, x, at.read) {
            return true;
        }
        is_read_from(&self.by_check, x, at.checked)
    }
}
