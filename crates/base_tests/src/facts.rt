//! The facts of operators' values, with expected facts by hand. Numbers are whole units.
use definedness::{Fact, fact_of, fact_of_input, fact_of_value};
use m_fixed::{Amount, Op, Value};

/// The possible values, as the tables below give them.
#[derive(Clone, Copy)]
enum Known {
    /// Only undefined.
    U,
    /// Only Over.
    O,
    /// Undefined or Over.
    B,
    /// One number.
    N(i64),
    /// The numbers from one to the other.
    R(i64, i64),
    /// Undefined or these numbers.
    M(i64, i64),
    /// Over or these numbers.
    V(i64, i64),
    /// Undefined, Over or these numbers.
    A(i64, i64),
}

use Known::{A, B, M, N, O, R, U, V};

/// The greatest amount.
const TOP: i64 = 10_000_000_000_000;

/// The least amount.
const LOW: i64 = -10_000_000_000_000;

/// Whether undefined and Over are possible, and between which units the numbers lie.
type Parts = (bool, bool, Option<(i64, i64)>);

fn parts(known: Known) -> Parts {
    match known {
        U => (true, false, None),
        O => (false, true, None),
        B => (true, true, None),
        N(n) => (false, false, Some((n, n))),
        R(low, high) => (false, false, Some((low, high))),
        M(low, high) => (true, false, Some((low, high))),
        V(low, high) => (false, true, Some((low, high))),
        A(low, high) => (true, true, Some((low, high))),
    }
}

fn number(units: i64) -> Value {
    match Amount::new(units as i128 * 1_000_000) {
        Some(amount) => Value::Num(amount),
        None => Value::Over,
    }
}

/// The possible values of a choice whose condition is 0 or 1.
fn either(a: Fact, b: Fact) -> Fact {
    let input = fact_of_input();
    fact_of(Op::Choose, fact_of(Op::Present, input, input, input), a, b)
}

fn with(is_kept: bool, value: Value, fact: Fact) -> Fact {
    if is_kept {
        either(fact_of_value(value), fact)
    } else {
        fact
    }
}

fn fact(known: Known) -> Fact {
    let (undef, over, range) = parts(known);
    match range {
        Some((low, high)) => {
            let numbers = either(fact_of_value(number(low)), fact_of_value(number(high)));
            with(undef, Value::Undef, with(over, Value::Over, numbers))
        }
        None => {
            let first = if undef { Value::Undef } else { Value::Over };
            with(over, Value::Over, fact_of_value(first))
        }
    }
}

fn is_number(amount: Amount, units: i64) -> bool {
    amount.millionths() == units as i128 * 1_000_000
}

/// Whether the fact has these possible values.
fn observe(fact: Fact, known: Known) -> bool {
    let (undef, over, range) = parts(known);
    let numbers = match (fact.range, range) {
        (None, None) => true,
        (Some((low, high)), Some((from, to))) => is_number(low, from) && is_number(high, to),
        _ => false,
    };
    fact.undef == undef && fact.over == over && numbers
}

/// An operator, the possible values of its arguments, and those of its value.
type Row = (Op, Known, Known, Known, Known);

static NUMBERS: [Row; 44] = [
    (Op::Add, R(1, 3), R(10, 20), U, R(11, 23)),
    (Op::Add, M(1, 3), R(10, 20), U, R(10, 23)),
    (Op::Add, M(1, 3), M(10, 20), U, M(0, 23)),
    (Op::Add, U, M(1, 3), U, M(0, 3)),
    (Op::Add, U, R(1, 3), U, R(1, 3)),
    (Op::Add, U, U, U, U),
    (Op::Add, O, R(1, 3), U, O),
    (Op::Add, R(1, 3), O, U, O),
    (Op::Add, V(1, 3), R(1, 1), U, V(2, 4)),
    (Op::Add, B, U, U, B),
    (Op::Add, M(LOW, TOP), M(LOW, TOP), U, A(LOW, TOP)),
    (Op::Add, R(TOP - 1, TOP), R(1, 5), U, V(TOP, TOP)),
    (Op::Add, R(TOP - 1, TOP), N(5), U, O),
    (Op::Add, M(TOP - 1, TOP), N(5), U, V(5, TOP)),
    (Op::Sub, R(1, 3), R(10, 20), U, R(-19, -7)),
    (Op::Sub, R(1, 3), M(10, 20), U, R(-19, 3)),
    (Op::Sub, U, R(1, 3), U, R(-3, -1)),
    (Op::Mul, R(-2, 3), R(-5, 7), U, R(-15, 21)),
    (Op::Mul, R(-3, -2), R(-5, -4), U, R(8, 15)),
    (Op::Mul, M(2, 3), R(4, 5), U, M(8, 15)),
    (Op::Mul, U, R(4, 5), U, U),
    (Op::Mul, M(LOW, TOP), M(LOW, TOP), U, A(LOW, TOP)),
    (Op::Mul, R(2, 3), N(TOP), U, O),
    (Op::Mul, R(-2, 3), N(TOP), U, V(LOW, TOP)),
    (Op::Mul, R(-3, -2), N(TOP), U, O),
    (Op::Div, R(10, 20), R(2, 5), U, R(2, 10)),
    (Op::Div, R(-10, 20), R(-5, -2), U, R(-10, 5)),
    (Op::Div, R(10, 20), N(0), U, N(0)),
    (Op::Div, R(-10, 20), R(-1, 1), U, R(-20_000_000, 20_000_000)),
    (Op::Div, R(-30, 20), R(0, 5), U, R(-30_000_000, 30_000_000)),
    (Op::Div, N(TOP), R(0, 5), U, V(LOW, TOP)),
    (Op::Neg, R(-2, 3), U, U, R(-3, 2)),
    (Op::Neg, M(LOW, TOP), O, O, M(LOW, TOP)),
    (Op::Neg, B, U, U, B),
    (Op::Abs, R(-2, 3), U, U, R(0, 3)),
    (Op::Abs, R(-5, -2), U, U, R(2, 5)),
    (Op::Abs, A(1, 2), U, U, A(1, 2)),
    (Op::Arr, R(-2, 3), U, U, R(-2, 3)),
    (Op::Inf, M(LOW, TOP), U, U, M(LOW, TOP)),
    (Op::Max, R(1, 5), R(2, 3), U, R(2, 5)),
    (Op::Max, M(-5, -2), N(-3), U, R(-3, 0)),
    (Op::Min, R(1, 5), R(2, 3), U, R(1, 3)),
    (Op::Min, U, R(2, 3), U, N(0)),
    (Op::Min, U, O, U, O),
];

static TESTS: [Row; 47] = [
    (Op::Eq, R(1, 3), R(5, 7), U, N(0)),
    (Op::Eq, R(1, 3), R(3, 7), U, R(0, 1)),
    (Op::Eq, N(3), N(3), U, N(1)),
    (Op::Eq, M(3, 3), N(3), U, M(1, 1)),
    (Op::Ne, R(1, 3), R(5, 7), U, N(1)),
    (Op::Ne, N(3), N(3), U, N(0)),
    (Op::Ne, N(3), R(3, 4), U, R(0, 1)),
    (Op::Lt, R(1, 3), R(3, 5), U, R(0, 1)),
    (Op::Lt, R(1, 3), R(4, 5), U, N(1)),
    (Op::Lt, R(5, 6), R(1, 5), U, N(0)),
    (Op::Le, R(1, 3), R(3, 5), U, N(1)),
    (Op::Le, R(5, 6), R(1, 4), U, N(0)),
    (Op::Gt, R(5, 6), R(1, 4), U, N(1)),
    (Op::Gt, R(1, 3), R(3, 5), U, N(0)),
    (Op::Ge, R(3, 5), R(1, 3), U, N(1)),
    (Op::Ge, R(1, 2), R(3, 5), U, N(0)),
    (Op::Ge, U, R(3, 5), U, U),
    (Op::And, R(1, 2), R(-3, -1), U, N(1)),
    (Op::And, R(0, 1), R(1, 2), U, R(0, 1)),
    (Op::And, N(0), R(0, 5), U, N(0)),
    (Op::Or, R(0, 0), M(0, 0), U, N(0)),
    (Op::Or, M(1, 2), N(0), U, R(0, 1)),
    (Op::Or, R(1, 2), M(0, 1), U, N(1)),
    (Op::Or, M(1, 2), M(1, 2), U, M(0, 1)),
    (Op::Not, R(1, 2), U, U, N(0)),
    (Op::Not, R(0, 1), U, U, R(0, 1)),
    (Op::Null, N(0), U, U, N(1)),
    (Op::Null, M(1, 2), U, U, M(0, 0)),
    (Op::Positive, R(1, 2), U, U, N(1)),
    (Op::Positive, R(-1, 0), U, U, N(0)),
    (Op::Positive, R(0, 1), U, U, R(0, 1)),
    (Op::PositiveOrNull, R(0, 2), U, U, N(1)),
    (Op::PositiveOrNull, R(-2, -1), U, U, N(0)),
    (Op::At, N(2), N(2), U, N(1)),
    (Op::At, R(1, 3), R(4, 5), U, N(0)),
    (Op::At, R(1, 3), R(3, 5), U, R(0, 1)),
    (Op::Present, M(1, 2), U, U, R(0, 1)),
    (Op::Present, R(0, 2), U, U, N(1)),
    (Op::Present, U, O, O, N(0)),
    (Op::Present, O, U, U, O),
    (Op::Present, V(0, 2), U, U, V(1, 1)),
    (Op::Truth, U, U, U, N(0)),
    (Op::Truth, O, U, U, N(0)),
    (Op::Truth, R(1, 2), O, O, N(1)),
    (Op::Truth, V(1, 2), U, U, R(0, 1)),
    (Op::Truth, M(0, 0), U, U, N(0)),
    (Op::Truth, R(0, 2), U, U, R(0, 1)),
];

static CHOICES: [Row; 8] = [
    (Op::Choose, N(0), N(5), M(8, 9), M(8, 9)),
    (Op::Choose, R(1, 2), N(5), U, N(5)),
    (Op::Choose, M(0, 1), N(5), N(9), M(5, 9)),
    (Op::Choose, U, N(5), N(9), U),
    (Op::Choose, O, N(5), N(9), O),
    (Op::Choose, V(0, 0), N(5), N(9), V(9, 9)),
    (Op::Choose, R(0, 1), U, O, B),
    (Op::Choose, M(-1, 2), O, R(1, 2), A(1, 2)),
];

/// Whether the row holds.
fn is_right(row: Row) -> bool {
    let (op, a, b, c, known) = row;
    observe(fact_of(op, fact(a), fact(b), fact(c)), known)
}

/// The first row that doesn't hold, if any.
fn first_wrong(rows: &[Row]) -> Option<usize> {
    for (i, row) in rows.iter().enumerate() {
        if !is_right(*row) {
            return Some(i);
        }
    }
    None
}

// The tables as functions, so that proofs about their users don't expand them.

fn numbers() -> &'static [Row] {
    &NUMBERS
}

fn all_tests() -> &'static [Row] {
    &TESTS
}

fn choices() -> &'static [Row] {
    &CHOICES
}

#[test]
fn facts_of_operators(rt: HostRuntime) {
    assert!(rt; first_wrong(numbers()).is_none());
    assert!(rt; first_wrong(all_tests()).is_none());
    assert!(rt; first_wrong(choices()).is_none());
}

#[test]
fn facts_of_literals_and_inputs(rt: HostRuntime) {
    assert!(rt; observe(fact_of_value(Value::Undef), U) && observe(fact_of_value(Value::Over), O));
    assert!(rt; observe(fact_of_value(number(-7)), N(-7)) && observe(fact_of_input(), M(LOW, TOP)));
}

/// Whether these possible values are the one value `value`.
fn is_one(known: Known, value: Value) -> bool {
    fact(known).one_value() == Some(value)
}

fn is_none(known: Known) -> bool {
    fact(known).one_value().is_none()
}

fn is_a_number(known: Known) -> bool {
    fact(known).is_number()
}

fn lacks_zero(known: Known) -> bool {
    fact(known).lacks_zero()
}

#[test]
fn what_a_fact_holds(rt: HostRuntime) {
    assert!(rt; is_one(U, Value::Undef) && is_one(O, Value::Over) && is_one(N(4), number(4)));
    assert!(rt; is_none(R(4, 5)) && is_none(B) && is_none(M(4, 4)));
    assert!(rt; is_a_number(R(4, 5)) && !is_a_number(M(4, 5)) && !is_a_number(O));
    assert!(rt; lacks_zero(A(4, 5)) && !lacks_zero(R(-4, 5)) && !lacks_zero(U));
}
