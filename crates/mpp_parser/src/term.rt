//! The syntax trees of terms.

ghost use Rattle.std.specs.Prelude.{◌≡◌};
ghost use Rattle.mpp_parser.specs.TermView.{term_of};

use m_fixed::{Amount, Op, Value};
use m_places::{Name, Seq};
use std::marker::Model;

/// The name of a cell: a variable's name, or a table's name with the cell's number, as in `T[3]`.
#[derive(Drop)]
pub struct CellName {
    pub name: Name,
    pub index: Option<u32>,
}

/// A kind of inputs.
#[derive(Drop)]
pub enum Kind {
    /// The inputs with this attribute at one of these values. `taxbenefit` is `avfisc` at 1 or 2.
    Attribute(Name, Seq<Amount>),
}

/// A term of a driver. Contracts see it as a `Term` of specs/, plain data.
#[cycle(term)]
#[derive(Drop)]
pub struct DTerm {
    pub node: DNode,
}

/// The forms of a term.
#[cycle(term)]
#[derive(Drop)]
pub enum DNode {
    Lit(Value),
    /// A variable, or a cell of a table.
    Named(CellName),
    /// An operator with its arguments in order: `not`, `-`, a comparison, or `present`.
    Apply(Op, Vec<DTerm>),
    /// A left-associative chain of operators of one level: `A - B + C` is A, then `- B`, then
    /// `+ C`. Products, `and` and `or` are chains too, and `cast(A)` is `A + 0`. There is at least
    /// one link.
    Chain(Box<DTerm>, Vec<DLink>),
    /// Whether an input of a kind is present.
    Exists(Kind),
}

/// An operand of a chain, with the operator before it.
#[cycle(term)]
#[derive(Drop)]
pub struct DLink {
    pub op: Op,
    pub term: DTerm,
}

impl Model for DTerm {
    ghost use Rattle.mpp_parser.specs.Trees.{Term, term_nodes};
    ghost use Rattle.mpp_parser.specs.inner.TermCoding.{coded_term};

    ghost Value = { Term };

    ghost coded = { coded_term };

    ghost use Rattle.mpp_parser.specs.TermView.{term_of};

    ghost view = { λ t. term_of t.node };

    ghost size = { term_nodes };

    ghost use Rattle.mpp_parser.specs.inner.TermFalls.{falls};

    ghost size_decreases = { λ a h. falls a.node };
}

/// The term with this node.
pub fn term_made(node: DNode) -> DTerm
    ensures { result ≡ term_of node }
{
    DTerm { node }
}
