//! The inputs on which nodes may depend, with expected inputs by hand: a choice by input 0 between input 2 and input
//! 1, the opposite of input 1, and the sum of input 2 and that opposite.
ghost use Rattle.std.specs.Prelude.{◌≡◌, ◌<◌, IfOk, length};
ghost use Rattle.std.specs.List.{AllByRecursion};
ghost use Rattle.flat_code.specs.Runs.{AreNodes};

use definedness::{Fact, fact_of_input, fact_of_value};
use flat_code::Node;
use input_reads::dependences;
use m_fixed::{Amount, Op, Value};
use std::alloc::{AllocError, Global};
use std::test::Fail;

fn nodes(alloc: Global) -> Result<Vec<Node>, AllocError>
    ensures { IfOk result (λ nodes. AreNodes 3 0 nodes.items × (length nodes.items ≡ 6)) }
{
    let nodes = vec![in alloc;
        Node::Input(2),
        Node::Input(0),
        Node::Input(1),
        Node::Do(Op::Choose, 1, 0, 2),
        Node::Do(Op::Neg, 2, 0, 0),
        Node::Do(Op::Add, 0, 4, 1),
    ]?;
    Ok(nodes)
}

// The facts of the nodes: this one for the second node, and none for the others.
fn known(alloc: Global, condition: Fact) -> Result<Vec<Fact>, AllocError>
    ensures { IfOk result (λ known. length known.items ≡ 6) }
{
    let any = fact_of_input();
    let known = vec![in alloc; any, condition, any, any, any, any]?;
    Ok(known)
}

// Whether these are the inputs of a node.
fn has_inputs(alloc: Global, condition: Fact, p: u32, wanted: &[u32]) -> bool
    requires { p < 6 }
{
    let Ok(nodes) = nodes(alloc) else {
        return false;
    };
    let Ok(known) = known(alloc, condition) else {
        return false;
    };
    match dependences(alloc, &nodes, 3, &known, &[p]) {
        Ok(found) => found.as_slice().len() == 1 && found.as_slice()[0].as_slice() == wanted,
        Err(_) => false,
    }
}

fn units(n: u8) -> Fact {
    match Amount::new(n as i128 * 1_000_000) {
        Some(amount) => fact_of_value(Value::Num(amount)),
        None => fact_of_value(Value::Undef),
    }
}

#[test]
fn inputs_of_nodes(rt: HostRuntime) {
    let any = fact_of_input();
    assert!(rt; has_inputs(rt.alloc(), any, 3, &[0, 1, 2]));
    assert!(rt; has_inputs(rt.alloc(), any, 4, &[1]));
    assert!(rt; has_inputs(rt.alloc(), any, 5, &[1, 2]));
    assert!(rt; has_inputs(rt.alloc(), any, 0, &[2]));
    assert!(rt; has_inputs(rt.alloc(), units(1), 3, &[2]));
    assert!(rt; has_inputs(rt.alloc(), units(0), 3, &[1]));
    assert!(rt; has_inputs(rt.alloc(), units(1), 1, &[]));
}
