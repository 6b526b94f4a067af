//! Terms without loops.
ghost use Rattle.std.specs.Prelude.{◌≡◌};
ghost use Rattle.m_ast.specs.PlainView.{syntax_of};

use crate::plain_name::PlainName;
use m_fixed::{Op, Value};
use m_places::Place;
use std::marker::Model;

/// A term without loops. Its names may share their bytes: `somme(i = 1..10000 : A)` has one copy of
/// a long name `A`. Contracts see it as a `Syntax`, like a `Term`.
#[cycle(plain_term)]
#[derive(Drop)]
pub struct PTerm {
    pub node: PNode,
}

/// The nodes of a term without loops: those of `Node`, except `Loop`.
#[cycle(plain_term)]
#[derive(Drop)]
pub enum PNode {
    Lit(Value),
    Named(PlainName, Place),
    X(Place),
    Cell(PlainName, Box<PTerm>, Place),
    Apply(Op, Vec<PTerm>),
    Chain(Box<PTerm>, Vec<PLink>),
    Among(bool, Box<PTerm>, Vec<PMember>),
}

/// An operand of a chain after the first, with the operator before it.
#[cycle(plain_term)]
#[derive(Drop)]
pub struct PLink {
    pub op: Op,
    pub term: PTerm,
}

/// A member of a membership: a range from a low end to a high end.
#[cycle(plain_term)]
#[derive(Drop)]
pub struct PMember {
    pub low: PTerm,
    pub high: PTerm,
}

impl Model for PTerm {
    ghost use Rattle.m_ast.specs.Syntax.{Syntax, nodes};
    ghost use Rattle.m_ast.specs.inner.Coding.{coded_syntax};

    ghost Value = { Syntax };

    ghost coded = { coded_syntax };

    ghost use Rattle.m_ast.specs.PlainView.{syntax_of};

    ghost view = { λ t. syntax_of t.node };

    ghost size = { nodes };

    ghost use Rattle.m_ast.specs.inner.PlainFalls.{falls};

    ghost size_decreases = { λ a h. falls a.node };
}

/// The term of a node.
pub fn plain(node: PNode) -> PTerm
    ensures { result ≡ syntax_of node }
{
    PTerm { node }
}
