//! Terms.
ghost use Rattle.std.specs.Prelude.{◌≡◌};
ghost use Rattle.m_ast.specs.View.{syntax_of};

use crate::Header;
use m_fixed::{Op, Value};
use m_places::{Name, Place};
use std::marker::Model;

/// A term: the right side of a formula, a condition, or a part of these. It is a struct around an
/// enum so that contracts see it as plain data, a `Syntax`.
#[cycle(term)]
#[derive(Drop)]
pub struct Term {
    pub node: Node,
}

/// The kinds of terms. Each form is one case for all proofs: all operators with a fixed number of
/// arguments are `Apply`, all that join any number of operands are `Chain`.
#[cycle(term)]
#[derive(Drop)]
pub enum Node {
    /// A value. Without `sinon`, the second branch of a conditional is the undefined one.
    Lit(Value),
    /// A word, and its place.
    Named(Name, Place),
    /// `X`, the number of the cell that a formula for a whole table sets, and its place.
    X(Place),
    /// `T[e]`: the table's name, the index, and the place of the name.
    Cell(Name, Box<Term>, Place),
    /// An operator and its arguments, in order: `non`, `-`, a comparison, a function, or a
    /// conditional, whose arguments are the condition and its two branches.
    Apply(Op, Vec<Term>),
    /// Left-associative operands of operators of one precedence: `a - b + c` is a, then `- b`, then
    /// `+ c`. Likewise products, `et` and `ou`. There is at least one link.
    Chain(Box<Term>, Vec<Link>),
    /// Whether the term is among the members, or, if the flag is true, among none of them
    /// (`non dans`). There is at least one member.
    Among(bool, Box<Term>, Vec<Member>),
    /// `somme(header: e)`.
    Loop(Header, Box<Term>),
}

/// An operand of a chain after the first, with the operator before it.
#[cycle(term)]
#[derive(Drop)]
pub struct Link {
    pub op: Op,
    pub term: Term,
}

/// A member of a membership: a range from a low end to a high end. The ends of a single value are
/// equal, and two equal ends are a single value.
#[cycle(term)]
#[derive(Drop)]
pub struct Member {
    pub low: Term,
    pub high: Term,
}

impl Model for Term {
    ghost use Rattle.m_ast.specs.Syntax.{Syntax, nodes};
    ghost use Rattle.m_ast.specs.inner.Coding.{coded_syntax};

    ghost Value = { Syntax };

    ghost coded = { coded_syntax };

    ghost use Rattle.m_ast.specs.View.{syntax_of};

    ghost view = { λ t. syntax_of t.node };

    ghost size = { nodes };

    ghost use Rattle.m_ast.specs.inner.Falls.{falls};

    ghost size_decreases = { λ a h. falls a.node };
}

/// The term of a node.
pub fn made(node: Node) -> Term
    ensures { result ≡ syntax_of node }
{
    Term { node }
}
