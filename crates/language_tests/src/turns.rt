//! The value of a cell with a given number of turns.
use m_fixed::{Amount, Op, Value};
use m_places::{Place, Seq};
use micro_m::{Base, MNode, MTerm, slow_value};
use std::alloc::Global;

fn number(millionths: i128) -> Value {
    match Amount::new(millionths) {
        Some(amount) => Value::Num(amount),
        None => Value::Over,
    }
}

// A cell less a number. If memory runs out both are missing, so its value is another.
fn less(alloc: Global, cell: u32, millionths: i128) -> MTerm {
    let mut both = Vec::new(alloc);
    let _first = both.push(MTerm::new(MNode::Cell(cell)));
    let _second = both.push(MTerm::new(MNode::Lit(number(millionths))));
    MTerm::new(MNode::Apply(Op::Sub, both))
}

fn add(definitions: &mut Vec<(u32, MTerm, Place)>, cell: u32, term: MTerm) {
    let place = Place {
        file: 0,
        byte: 0,
        line: 1,
    };
    let _added = definitions.push((cell, term, place));
}

// Cell 0 is given. Cell 1 is cell 0 less 4, cell 2 is cell 1 less 1, and cell 3 is itself less 1.
fn base(alloc: Global) -> Base {
    let mut definitions = Vec::new(alloc);
    add(&mut definitions, 2, less(alloc, 1, 1_000_000));
    add(&mut definitions, 1, less(alloc, 0, 4_000_000));
    add(&mut definitions, 3, less(alloc, 3, 1_000_000));
    Base {
        cells: 4,
        constants: Seq::from_vec(Vec::new(alloc)),
        definitions: Seq::from_vec(definitions),
        checks: Seq::from_vec(Vec::new(alloc)),
        labels: Seq::from_vec(Vec::new(alloc)),
    }
}

// Whether a cell has this value with `turns` turns, where cell 0 is 10.
fn is(base: &Base, cell: u32, turns: u32, wanted: Value) -> bool {
    let given = [number(10_000_000), Value::Undef, Value::Undef, Value::Undef];
    slow_value(base, &given, cell, turns) == wanted
}

// With no turns each cell is undefined, which counts as 0 in a difference.
fn check(base: &Base) -> bool {
    is(base, 0, 0, Value::Undef)
        && is(base, 0, 1, number(10_000_000))
        && is(base, 2, 0, Value::Undef)
        && is(base, 2, 1, number(-1_000_000))
        && is(base, 2, 2, number(-5_000_000))
        && is(base, 2, 3, number(5_000_000))
        && is(base, 2, 9, number(5_000_000))
        && is(base, 3, 1, number(-1_000_000))
        && is(base, 3, 7, number(-7_000_000))
        && is(base, 4, 1, Value::Undef)
}

#[test]
fn values_take_turns(rt: HostRuntime) {
    assert!(rt; check(&base(rt.alloc())));
}
