//! Errors of loops and letters. They are found in the order of the source, and the one with the
//! least place is reported.
ghost use Rattle.std.specs.Prelude.{◌≡◌, not};
ghost use Rattle.std.specs.List.{flat_map, list_any};
ghost use Rattle.m_ast.specs.Syntax as tree;
ghost use Rattle.m_ast.specs.View.{terms_of, links_of, members_of};
ghost use Rattle.loop_values.specs.Headers.{is_bad_index, all_indexes};
ghost use Rattle.loop_values.specs.Values.{is_nothing};
ghost use Rattle.index_expand.specs.LoopFaults as spec;
ghost use Rattle.index_expand.specs.inner.Repeats.{Repeats};

use crate::ExpandFault;
use loop_values::{has_bad_span, instance_count, repeated_letters};
use m_ast::{CheckItem, Formula, Header, Index, Link, Member, Node, Term};
use m_places::Place;
use m_places::limits::LOOP_INSTANCES;

/// The error so far or one of this formula's, whichever has the least place.
pub(crate) fn with_formula(first: Option<ExpandFault>, formula: &Formula) -> Option<ExpandFault>
    ensures { result ≡ spec.least first (spec.formula_faults formula.now) }
{
    let headers = formula.loops.as_slice();
    let scope = formula_scope(headers);
    let first = with_headers(first, headers);
    let first = with_word(first, &scope, formula.target.bytes(), formula.place);
    with_term(first, &scope, &formula.term)
}

pub(crate) fn with_check(first: Option<ExpandFault>, check: &CheckItem) -> Option<ExpandFault>
    ensures { result ≡ spec.least first (spec.check_faults check.now) }
{
    with_term(first, &no_scope(), &check.condition)
}

// The scope outside of all loops.
fn no_scope() -> [bool; 256]
    ensures { result ≡ spec.no_scope }
{
    [false; 256]
}

// Extends the scope by the letters of indexes.
fn bind_letters(scope: &mut [bool; 256], indexes: &[Index])
    ensures { scope.new ≡ spec.scope_within indexes.now scope.old }
{
    for index in indexes {
        scope[index.letter as usize] = true;
    }
}

fn formula_scope(headers: &[Header]) -> [bool; 256]
    ensures { result ≡ spec.scope_within (all_indexes headers.now) spec.no_scope }
{
    let mut scope = no_scope();
    for header in headers {
        bind_letters(&mut scope, header.indexes.as_slice());
    }
    scope
}

fn with_headers(first: Option<ExpandFault>, headers: &[Header]) -> Option<ExpandFault>
    ensures { result ≡ spec.least first (flat_map spec.header_faults headers.now) }
{
    let mut first = first;
    for header in headers {
        first = with_header(first, header);
    }
    first
}

#[inline(never)]
fn with_header(first: Option<ExpandFault>, header: &Header) -> Option<ExpandFault>
    ensures { result ≡ spec.least first (spec.header_faults header.now) }
{
    let indexes = header.indexes.as_slice();
    let repeated = repeated_letters(indexes);
    if is_any_bad(indexes, &repeated) {
        with_bad_ranges(first, indexes, &repeated)
    } else {
        with_size(first, header)
    }
}

// The error of a header that has too many instances.
fn with_size(first: Option<ExpandFault>, header: &Header) -> Option<ExpandFault>
    ensures { result ≡ spec.least first (spec.too_large header.now) }
{
    if instance_count(1, header.indexes.as_slice()) > LOOP_INSTANCES as u64 {
        earlier(first, ExpandFault::LoopTooLarge(header.place))
    } else {
        first
    }
}

fn is_any_bad(indexes: &[Index], repeated: &[bool; 256]) -> bool
    requires { Repeats repeated.now indexes.now }
    ensures { is_nothing (spec.bad_ranges indexes.now indexes.now) ≡ not result }
{
    for index in indexes {
        if is_bad(indexes, repeated, index) {
            return true;
        }
    }
    false
}

fn with_bad_ranges(
    first: Option<ExpandFault>,
    indexes: &[Index],
    repeated: &[bool; 256],
) -> Option<ExpandFault>
    requires { Repeats repeated.now indexes.now }
    ensures { result ≡ spec.least first (spec.bad_ranges indexes.now indexes.now) }
{
    let mut first = first;
    for index in indexes {
        if is_bad(indexes, repeated, index) {
            first = earlier(first, ExpandFault::BadRange(index.place));
        }
    }
    first
}

// Whether an index of a header is faulty, given the letters that are bound twice in the header.
fn is_bad(header: &[Index], repeated: &[bool; 256], index: &Index) -> bool
    requires { Repeats repeated.now header.now }
    ensures { result ≡ is_bad_index header.now index.now }
{
    has_bad_span(index) || repeated[index.letter as usize]
}

#[inline(never)]
fn with_word(
    first: Option<ExpandFault>,
    scope: &[bool; 256],
    word: &[u8],
    place: Place,
) -> Option<ExpandFault>
    ensures { result ≡ spec.least first (spec.word_faults scope.now word.now place) }
{
    if has_unbound(scope, word) {
        earlier(first, ExpandFault::UnboundIndex(place))
    } else {
        first
    }
}

fn has_unbound(scope: &[bool; 256], word: &[u8]) -> bool
    ensures { result ≡ list_any (spec.is_unbound_letter scope.now) word.now }
{
    for byte in word {
        if is_unbound(scope, *byte) {
            return true;
        }
    }
    false
}

fn is_unbound(scope: &[bool; 256], byte: u8) -> bool
    ensures { result ≡ spec.is_unbound_letter scope.now byte }
{
    byte.is_ascii_lowercase() && !scope[byte as usize]
}

// The error with the lesser place.
fn earlier(first: Option<ExpandFault>, fault: ExpandFault) -> Option<ExpandFault>
    ensures { result ≡ spec.earlier first fault }
{
    match first {
        None => Some(fault),
        Some(first) => {
            if is_before(place_of(fault), place_of(first)) {
                Some(fault)
            } else {
                Some(first)
            }
        }
    }
}

fn is_before(p: Place, q: Place) -> bool
    ensures { result ≡ spec.is_before p q }
{
    p.file < q.file || (p.file == q.file && p.byte < q.byte)
}

fn place_of(fault: ExpandFault) -> Place
    ensures { result ≡ spec.place_of fault }
{
    match fault {
        ExpandFault::BadRange(place)
        | ExpandFault::LoopTooLarge(place)
        | ExpandFault::UnboundIndex(place)
        | ExpandFault::TooManyParts(place) => place,
        ExpandFault::Memory => Place {
            file: 0,
            byte: 0,
            line: 0,
        },
    }
}

#[cycle(with_term)]
fn with_term(first: Option<ExpandFault>, scope: &[bool; 256], term: &Term) -> Option<ExpandFault>
    ensures { result ≡ spec.least first (spec.term_faults scope.now term.now) }
{
    match &term.node {
        Node::Lit(_) | Node::X(_) => first,
        Node::Named(word, place) => with_word(first, scope, word.bytes(), *place),
        Node::Cell(word, index, place) => {
            let first = with_word(first, scope, word.bytes(), *place);
            with_term(first, scope, index)
        }
        Node::Apply(_, arguments) => with_terms(first, scope, arguments),
        Node::Chain(operand, links) => {
            let first = with_term(first, scope, operand);
            with_links(first, scope, links)
        }
        Node::Among(_, operand, members) => {
            let first = with_term(first, scope, operand);
            with_members(first, scope, members)
        }
        Node::Loop(header, body) => with_loop(first, scope, header, body),
    }
}

// The header of a loop, and its body in the extended scope. A separate function, never inlined, so
// that the frames of other levels hold no scope.
#[inline(never)]
#[cycle(with_term)]
fn with_loop(
    first: Option<ExpandFault>,
    scope: &[bool; 256],
    header: &Header,
    body: &Term,
) -> Option<ExpandFault>
    ensures { result ≡ spec.least first (spec.term_faults scope.now (tree.loop header.now body.now)) }
{
    let first = with_header(first, header);
    let mut inner = *scope;
    bind_letters(&mut inner, header.indexes.as_slice());
    with_term(first, &inner, body)
}

#[cycle(with_term)]
fn with_terms(
    first: Option<ExpandFault>,
    scope: &[bool; 256],
    terms: &[Term],
) -> Option<ExpandFault>
    ensures { result ≡ spec.least first (spec.terms_faults scope.now (terms_of terms.now)) }
{
    let mut first = first;
    for term in terms {
        first = with_term(first, scope, term);
    }
    first
}

#[cycle(with_term)]
fn with_links(
    first: Option<ExpandFault>,
    scope: &[bool; 256],
    links: &[Link],
) -> Option<ExpandFault>
    ensures { result ≡ spec.least first (spec.links_faults scope.now (links_of links.now)) }
{
    let mut first = first;
    for link in links {
        first = with_term(first, scope, &link.term);
    }
    first
}

#[cycle(with_term)]
fn with_members(
    first: Option<ExpandFault>,
    scope: &[bool; 256],
    members: &[Member],
) -> Option<ExpandFault>
    ensures { result ≡ spec.least first (spec.members_faults scope.now (members_of members.now)) }
{
    let mut first = first;
    for member in members {
        first = with_term(first, scope, &member.low);
        first = with_term(first, scope, &member.high);
    }
    first
}
