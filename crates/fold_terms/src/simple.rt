//! Tests and rewrites of a single node.
ghost use Rattle.std.specs.Prelude.{◌≡◌, IfSome, IfNone, false};
ghost use Rattle.flat_code.specs.Runs.{is_one};
ghost use Rattle.flat_code.specs.Tidy.{is_literal, is_literal_of, is_null, is_made_by, is_test, is_neg};
ghost use Rattle.fold_terms.specs.inner.Built.{normalised, IsOpposite, choice_of, is_decided};

use definedness::Fact;
use flat_code::{Node, is_one};
use m_fixed::{Amount, Op, Value, arity};

/// The node, with each argument past the arity replaced by the first.
pub fn normalised(node: Node) -> Node
    ensures { result ≡ normalised node }
{
    match node {
        Node::Input(n) => Node::Input(n),
        Node::Lit(v) => Node::Lit(v),
        Node::Do(op, a, b, c) => {
            let n = arity(op);
            let second = if n < 2 { a } else { b };
            let third = if n < 3 { a } else { c };
            Node::Do(op, a, second, third)
        }
    }
}

/// Whether the node is the literal 0.
pub fn is_zero_literal(node: Node) -> bool
    ensures { result ≡ is_literal_of is_null node }
{
    match node {
        Node::Lit(value) => is_null(value),
        Node::Input(_) | Node::Do(_, _, _, _) => false,
    }
}

fn is_null(value: Value) -> bool
    ensures { result ≡ is_null value }
{
    match value {
        Value::Num(amount) => amount.millionths() == 0,
        Value::Undef | Value::Over => false,
    }
}

/// Whether the node is the literal 1.
pub fn is_unit_literal(node: Node) -> bool
    ensures { result ≡ is_literal_of is_one node }
{
    match node {
        Node::Lit(value) => is_one(value),
        Node::Input(_) | Node::Do(_, _, _, _) => false,
    }
}

/// The value of a literal; none for other nodes.
pub fn literal(node: Node) -> Option<Value>
    ensures some { IfSome result (λ v. node ≡ Node.Lit v) }
    ensures none { IfNone result (is_literal node ≡ false) }
{
    match node {
        Node::Lit(value) => Some(value),
        Node::Input(_) | Node::Do(_, _, _, _) => None,
    }
}

/// Whether the operator is Neg.
fn is_neg(op: Op) -> bool
    ensures { result ≡ is_neg op }
{
    op == Op::Neg
}

/// The argument of an opposite; none for other nodes.
pub fn opposite_of(node: Node) -> Option<u32>
    ensures some { IfSome result (λ x. IsOpposite node x) }
    ensures none { IfNone result (is_made_by is_neg node ≡ false) }
{
    match node {
        Node::Do(op, x, _, _) => match op {
            Op::Neg => Some(x),
            _ => None,
        },
        Node::Lit(_) | Node::Input(_) => None,
    }
}

/// Whether the node's operator is a comparison or another test.
pub fn is_test_node(node: Node) -> bool
    ensures { result ≡ is_made_by is_test node }
{
    match node {
        Node::Do(op, _, _, _) => is_test(op),
        Node::Lit(_) | Node::Input(_) => false,
    }
}

fn is_test(op: Op) -> bool
    ensures { result ≡ is_test op }
{
    match op {
        Op::Eq
        | Op::Ne
        | Op::Lt
        | Op::Le
        | Op::Gt
        | Op::Ge
        | Op::And
        | Op::Or
        | Op::Not
        | Op::Present
        | Op::Positive
        | Op::PositiveOrNull
        | Op::Null
        | Op::At
        | Op::Truth => true,
        Op::Add
        | Op::Sub
        | Op::Mul
        | Op::Div
        | Op::Neg
        | Op::Abs
        | Op::Arr
        | Op::Inf
        | Op::Max
        | Op::Min
        | Op::Choose => false,
    }
}

/// The branch that a choice with a literal condition takes.
pub fn choice_of(value: Value, a: u32, b: u32, c: u32) -> u32
    ensures { result ≡ choice_of value a b c }
{
    match value {
        Value::Undef => a,
        Value::Num(amount) => branch_of(amount, b, c),
        Value::Over => a,
    }
}

fn branch_of(amount: Amount, b: u32, c: u32) -> u32
    ensures { result ≡ choice_of (Value.Num amount) 0 b c }
{
    if amount.millionths() == 0 { c } else { b }
}

/// Whether a choice always takes its first branch, by the fact of its condition and whether its
/// branches are equal.
pub fn is_decided(fact: Fact, same: bool) -> bool
    ensures { result ≡ is_decided fact same }
{
    fact.is_number() && (same || fact.lacks_zero())
}
