//! The cost of drivers whose functions call each other, over a base without rules.
use driver_core::{CCommand, CCommandNode, Core, weight};
use m_places::Seq;
use micro_m::Base;
use std::alloc::Global;

// A base without rules.
fn no_rules(alloc: Global) -> Base {
    Base {
        cells: 3,
        constants: Seq::from_vec(Vec::new(alloc)),
        definitions: Seq::from_vec(Vec::new(alloc)),
        checks: Seq::from_vec(Vec::new(alloc)),
        labels: Seq::from_vec(Vec::new(alloc)),
    }
}

// Whether a driver of three cells whose functions have these bodies has this cost.
fn weighs(alloc: Global, bodies: Vec<Seq<CCommand>>, wanted: u64) -> bool {
    let core = Core {
        cells: 3,
        names: Seq::from_vec(Vec::new(alloc)),
        bodies: Seq::from_vec(bodies),
        main: 0,
    };
    match weight(alloc, &core, &no_rules(alloc)) {
        Ok(cost) => cost == wanted,
        Err(_) => false,
    }
}

// `C <- FUNCTION()`.
fn call(alloc: Global, function: u32) -> CCommand {
    let mut cells = Vec::new(alloc);
    let _added = cells.push(2);
    CCommand::new(CCommandNode::Call(1, 1, Seq::from_vec(cells), function))
}

// Adds a function. If memory runs out it is missing, so the driver has another weight.
fn add_function(alloc: Global, bodies: &mut Vec<Seq<CCommand>>, command: CCommand) {
    let mut block = Vec::new(alloc);
    let _command = block.push(command);
    let _added = bodies.push(Seq::from_vec(block));
}

// Four functions: each calls the next, and the last calls the first.
fn ring(alloc: Global) -> Vec<Seq<CCommand>> {
    let mut bodies = Vec::new(alloc);
    for next in [1, 2, 3, 0] {
        add_function(alloc, &mut bodies, call(alloc, next));
    }
    bodies
}

// 300,000 functions: each calls the next; and one that deletes C.
fn chain(alloc: Global) -> Vec<Seq<CCommand>> {
    let mut bodies = Vec::new(alloc);
    for n in 0..300_000_u32 {
        add_function(alloc, &mut bodies, call(alloc, n + 1));
    }
    add_function(alloc, &mut bodies, CCommand::new(CCommandNode::Del(1, 2)));
    bodies
}

// Each level of calls in a ring costs 3, and there is one level more than functions. Each call of a chain costs 3, and
// the command costs 1.
#[test]
fn functions_are_weighed(rt: HostRuntime) {
    assert!(rt; weighs(rt.alloc(), ring(rt.alloc()), 15));
    assert!(rt; weighs(rt.alloc(), chain(rt.alloc()), 900_001));
}
