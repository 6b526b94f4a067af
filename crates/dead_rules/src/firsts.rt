//! Removes duplicate checks: the first of equal checks is kept.
ghost use Rattle.std.specs.Prelude.{◌≡◌, ◌<◌, ◌≤◌, length, map, IfOk, OnOk};
ghost use Rattle.dead_rules.specs.inner.Firsts.{check_node, IsTaken, AreFirsts};

use common_terms::{Key, NodeTable, NodesDigest};
use flat_code::{Check, Node};
use m_fixed::Op;
use std::alloc::{AllocError, Global};

// A check encoded as a node, so that a table of nodes can find it. The node is never computed.
fn node_of(check: Check) -> Node
    ensures { result ≡ check_node check }
{
    if check.over_only {
        Node::Do(Op::And, check.guard, check.condition, check.label)
    } else {
        Node::Do(Op::Or, check.guard, check.condition, check.label)
    }
}

// A hash key that is derived from all checks.
fn key_of(checks: &[Check]) -> Key {
    let mut digest = NodesDigest::new();
    for check in checks {
        digest.take(node_of(*check));
    }
    digest.key()
}

// Appends a check unless an equal one was taken. The table has the encoded checks.
fn take(table: &mut NodeTable, taken: &mut Vec<Check>, check: Check) -> Result<(), AllocError>
    requires room { length table.old < 4_294_967_295 }
    requires same { table.old ≡ map check_node taken.old.items }
    ensures same { OnOk result (table.new ≡ map check_node taken.new.items) }
    ensures taken { OnOk result (IsTaken taken.old.items taken.new.items check) }
{
    let count = table.count();
    let number = table.find_or_add(node_of(check))?;
    if number == count {
        taken.push(check)?;
    }
    Ok(())
}

/// The checks without duplicates of earlier ones.
pub fn firsts(alloc: Global, checks: &[Check]) -> Result<Vec<Check>, AllocError>
    requires { length checks.now ≤ 4_294_967_295 }
    ensures { IfOk result (λ new. AreFirsts checks.now new.items) }
{
    let mut table = NodeTable::under(alloc, key_of(checks));
    let mut taken = Vec::new(alloc);
    for i in 0..checks.len() {
        let check = checks[i];
        take(&mut table, &mut taken, check)?;
    }
    Ok(taken)
}
