//! Single members of a membership, in terms without loops.
ghost use Rattle.std.specs.Prelude.{◌≡◌, option_copied, IfOk};
ghost use Rattle.m_ast.specs.View.{terms_of};
ghost use Rattle.std.specs.Str.{bytes_eq};
ghost use Rattle.m_ast.specs.Members as spec;

use crate::members::{is_negation, is_same_amount};
use crate::plain_name::PlainName;
use crate::plain_term::{PNode, PTerm};
use m_fixed::{Amount, Value};
use std::alloc::{AllocError, Global};

/// Whether a member is a single value, as by `is_single`. The only error is out of memory.
pub fn is_plain_single(alloc: Global, low: &PTerm, high: &PTerm) -> Result<bool, AllocError>
    ensures { IfOk result (λ single. single ≡ spec.is_single low.now high.now) }
{
    let same_word = is_same_name(alloc, word_of(low), word_of(high))?;
    Ok(
        is_same_amount(amount_of(low), amount_of(high))
            || is_same_amount(opposite_of(low), opposite_of(high))
            || same_word,
    )
}

fn is_same_name(
    alloc: Global,
    a: Option<&PlainName>,
    b: Option<&PlainName>,
) -> Result<bool, AllocError>
    ensures { IfOk result (λ same. same ≡ spec.are_equal bytes_eq (option_copied a.entry) (option_copied b.entry)) }
{
    match a {
        Some(a) => match b {
            Some(b) => is_equal(alloc, a, b),
            None => Ok(false),
        },
        None => Ok(false),
    }
}

fn is_equal(alloc: Global, a: &PlainName, b: &PlainName) -> Result<bool, AllocError>
    ensures { IfOk result (λ same. same ≡ bytes_eq a.now b.now) }
{
    let a = a.written(alloc)?;
    let b = b.written(alloc)?;
    Ok(a.bytes() == b.bytes())
}

// The amount of a literal.
fn amount_of(term: &PTerm) -> Option<Amount>
    ensures { result ≡ spec.amount_of term.now }
{
    match &term.node {
        PNode::Lit(Value::Num(amount)) => Some(*amount),
        PNode::Lit(_)
        | PNode::Named(_, _)
        | PNode::X(_)
        | PNode::Cell(_, _, _)
        | PNode::Apply(_, _)
        | PNode::Chain(_, _)
        | PNode::Among(_, _, _) => None,
    }
}

// The amount of a negated literal, without the minus.
fn opposite_of(term: &PTerm) -> Option<Amount>
    ensures { result ≡ spec.opposite_of term.now }
{
    match &term.node {
        PNode::Apply(op, arguments) => {
            if is_negation(*op) {
                only_amount(arguments)
            } else {
                None
            }
        }
        PNode::Lit(_)
        | PNode::Named(_, _)
        | PNode::X(_)
        | PNode::Cell(_, _, _)
        | PNode::Chain(_, _)
        | PNode::Among(_, _, _) => None,
    }
}

fn only_amount(arguments: &[PTerm]) -> Option<Amount>
    ensures { result ≡ spec.only_amount (terms_of arguments.now) }
{
    match arguments {
        [] => None,
        [only] => amount_of(only),
        [_, _, ..] => None,
    }
}

// The word, if the term is one.
fn word_of(term: &PTerm) -> Option<&PlainName>
    ensures { option_copied result ≡ spec.word_of term.now }
{
    match &term.node {
        PNode::Named(word, _) => Some(word),
        PNode::Lit(_)
        | PNode::X(_)
        | PNode::Cell(_, _, _)
        | PNode::Apply(_, _)
        | PNode::Chain(_, _)
        | PNode::Among(_, _, _) => None,
    }
}
