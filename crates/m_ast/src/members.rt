//! Single members of a membership.
ghost use Rattle.std.specs.Prelude.{◌≡◌, option_copied};
ghost use Rattle.std.specs.Str.{bytes_eq};
ghost use Rattle.std.specs.Ordering.{int_eq};
ghost use Rattle.m_ast.specs.View.{terms_of};
ghost use Rattle.m_ast.specs.Members as spec;

use crate::{Node, Term};
use m_fixed::{Amount, Op, Value};

/// Whether a member is a single value: both ends are the same amount, the same negated amount, or
/// the same word. `3..3.0` is single, and `-0..0` is a range. Takes no memory.
pub fn is_single(low: &Term, high: &Term) -> bool
    ensures { result ≡ spec.is_single low.now high.now }
{
    is_same_amount(amount_of(low), amount_of(high))
        || is_same_amount(opposite_of(low), opposite_of(high))
        || is_same_word(word_of(low), word_of(high))
}

pub(crate) fn is_same_amount(a: Option<Amount>, b: Option<Amount>) -> bool
    ensures { result ≡ spec.are_equal int_eq a b }
{
    match (a, b) {
        (Some(a), Some(b)) => a.millionths() == b.millionths(),
        _ => false,
    }
}

fn is_same_word(a: Option<&[u8]>, b: Option<&[u8]>) -> bool
    ensures { result ≡ spec.are_equal bytes_eq (option_copied a.entry) (option_copied b.entry) }
{
    match a {
        Some(a) => match b {
            Some(b) => a == b,
            None => false,
        },
        None => false,
    }
}

// The amount of a literal.
fn amount_of(term: &Term) -> Option<Amount>
    ensures { result ≡ spec.amount_of term.now }
{
    match &term.node {
        Node::Lit(Value::Num(amount)) => Some(*amount),
        Node::Lit(_)
        | Node::Named(_, _)
        | Node::X(_)
        | Node::Cell(_, _, _)
        | Node::Apply(_, _)
        | Node::Chain(_, _)
        | Node::Among(_, _, _)
        | Node::Loop(_, _) => None,
    }
}

// The amount of a negated literal, without the minus.
fn opposite_of(term: &Term) -> Option<Amount>
    ensures { result ≡ spec.opposite_of term.now }
{
    match &term.node {
        Node::Apply(op, arguments) => {
            if is_negation(*op) {
                only_amount(arguments)
            } else {
                None
            }
        }
        Node::Lit(_)
        | Node::Named(_, _)
        | Node::X(_)
        | Node::Cell(_, _, _)
        | Node::Chain(_, _)
        | Node::Among(_, _, _)
        | Node::Loop(_, _) => None,
    }
}

pub(crate) fn is_negation(op: Op) -> bool
    ensures { result ≡ spec.is_negation op }
{
    matches!(op, Op::Neg)
}

fn only_amount(arguments: &[Term]) -> Option<Amount>
    ensures { result ≡ spec.only_amount (terms_of arguments.now) }
{
    match arguments {
        [] => None,
        [only] => amount_of(only),
        [_, _, ..] => None,
    }
}

// The word, if the term is one.
fn word_of(term: &Term) -> Option<&[u8]>
    ensures { option_copied result ≡ spec.word_of term.now }
{
    match &term.node {
        Node::Named(word, _) => Some(word.bytes()),
        Node::Lit(_)
        | Node::X(_)
        | Node::Cell(_, _, _)
        | Node::Apply(_, _)
        | Node::Chain(_, _)
        | Node::Among(_, _, _)
        | Node::Loop(_, _) => None,
    }
}
