//! The number of parts of an expanded term.
ghost use Rattle.std.specs.Prelude.{◌≡◌, ℕ, ◌+◌, ◌-◌, ◌*◌, ◌≤◌, min};
ghost use Rattle.m_ast.specs.View.{terms_of, links_of, members_of};
ghost use Rattle.index_expand.specs.Parts as spec;

use loop_values::instance_count;
use m_ast::{Link, Member, Node, Term, is_single};
use m_places::limits::PARTS;

/// The maximal number of parts of a base. Counts saturate here.
pub(crate) const MOST: u64 = PARTS as u64;

/// The number of parts of the expanded term, or `MOST` if it is more.
#[cycle(parts)]
pub(crate) fn parts(term: &Term) -> u64
    ensures { result ≡ min (spec.parts term.now) PARTS }
{
    match &term.node {
        Node::Lit(_) | Node::Named(_, _) | Node::X(_) => 1,
        Node::Cell(_, index, _) => plus(parts(index), 1),
        Node::Apply(_, arguments) => plus(terms_parts(arguments), 1),
        Node::Chain(first, links) => links_parts(parts(first), links),
        Node::Among(negated, first, members) => {
            membership_parts(*negated, members_parts(parts(first), members))
        }
        Node::Loop(header, body) => {
            loop_parts(instance_count(1, header.indexes.as_slice()), parts(body))
        }
    }
}

#[cycle(parts)]
fn terms_parts(terms: &[Term]) -> u64
    ensures { result ≡ min (spec.terms_parts (terms_of terms.now)) PARTS }
{
    let mut count = 0;
    for term in terms {
        count = plus(count, parts(term));
    }
    count
}

#[cycle(parts)]
fn links_parts(first: u64, links: &[Link]) -> u64
    requires { first ≤ PARTS }
    ensures { result ≡ min (first + spec.links_parts (links_of links.now)) PARTS }
{
    let mut count = first;
    for link in links {
        count = plus(count, plus(parts(&link.term), 1));
    }
    count
}

// The parts of members joined by `ou`, if the first operand has `first` parts or saturates. The
// count includes one `ou` too many, so it saturates at `MOST + 1`.
#[cycle(parts)]
fn members_parts(first: u64, members: &[Member]) -> u64
    requires { first ≤ PARTS }
    ensures { (x : ℕ) → first ≡ min x PARTS → result ≡ min (spec.members_parts x (members_of members.now)) (PARTS + 1) }
{
    let mut count = 0;
    for member in members {
        let low = parts(&member.low);
        let high = parts(&member.high);
        let single = is_single(&member.low, &member.high);
        count = (count + member_parts(single, first, low, high)).min(MOST + 1);
    }
    count
}

fn member_parts(single: bool, first: u64, low: u64, high: u64) -> u64
    requires first_in { first ≤ PARTS }
    requires low_in { low ≤ PARTS }
    requires high_in { high ≤ PARTS }
    ensures { result ≡ spec.member_parts single first low high + 1 }
{
    if single {
        first + low + 2
    } else {
        first + low + first + high + 4
    }
}

fn membership_parts(negated: bool, members: u64) -> u64
    requires { members ≤ PARTS + 1 }
    ensures { result ≡ min (spec.negation_parts negated + (members - 1)) PARTS }
{
    let joined = members.saturating_sub(1);
    if negated { plus(1, joined) } else { joined }
}

fn loop_parts(instances: u64, body: u64) -> u64
    requires instances_in { instances ≤ PARTS + 1 }
    requires body_in { body ≤ PARTS }
    ensures { result ≡ min (instances * (body + 1) - 1) PARTS }
{
    (instances * (body + 1)).saturating_sub(1).min(MOST)
}

fn plus(a: u64, b: u64) -> u64
    requires first { a ≤ PARTS }
    requires second { b ≤ PARTS }
    ensures { result ≡ min (a + b) PARTS }
{
    (a + b).min(MOST)
}
