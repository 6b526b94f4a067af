//! Terms and headers, each form once with its tree written by hand.
use crate::readings::{Reading, check_all};
use crate::texts::{add, add_number};
use m_ast::{Header, Index, Link, Member, Node, Span, Term};
use m_fixed::{Op, Value};
use m_lexer::Token;
use m_places::Place;
use m_terms::{TermFault, read_header, read_term};
use std::alloc::Global;
use std::test::Fail;

// Texts with the term at their start and the position after it. A term is printed as a text: a number by its
// millionths, a name with its byte, an operator before its arguments in round brackets, a chain in square ones, and a
// header in curly ones.
static TERMS: [(&str, &str); 39] = [
    ("1.5 ;", "1500000 to 1"),
    ("A ;", "A@0 to 1"),
    ("X )", "X@0 to 1"),
    ("T[X] ]", "T@0[X@2] to 4"),
    ("T[A + 1] ,", "T@0[[A@2 Add 1000000]] to 6"),
    ("(A) alors", "A@1 to 3"),
    (
        "si A alors 1 sinon 2 finsi sinon",
        "(Choose A@3 1000000 2000000) to 7",
    ),
    (
        "si A alors 1 finsi finsi",
        "(Choose A@3 1000000 undefined) to 5",
    ),
    ("present(A) ;", "(Present A@8) to 4"),
    ("abs(A) ;", "(Abs A@4) to 4"),
    ("positif(A) ;", "(Positive A@8) to 4"),
    ("positif_ou_nul(A) ;", "(PositiveOrNull A@15) to 4"),
    ("null(A) ;", "(Null A@5) to 4"),
    ("arr(A) ;", "(Arr A@4) to 4"),
    ("inf(A) ;", "(Inf A@4) to 4"),
    ("max(A, 1) ;", "(Max A@4 1000000) to 6"),
    ("min(1, A) ;", "(Min 1000000 A@7) to 6"),
    ("somme(i = 1..3 : Ai) ;", "({i@6 1..3} Ai@17) to 10"),
    (
        "somme(un i dans V,C et un j dans (08..10) : Aij) ;",
        "({i@9 V C}{j@26 08..10} Aij@44) to 20",
    ),
    ("-A ;", "(Neg A@1) to 2"),
    ("A - B - C ;", "[A@0 Sub B@4 Sub C@8] to 5"),
    ("A * -2 / C ;", "[A@0 Mul (Neg 2000000) Div C@9] to 6"),
    ("A + B * C ;", "[A@0 Add [B@4 Mul C@8]] to 5"),
    ("(A + B) * C ;", "[[A@1 Add B@5] Mul C@10] to 7"),
    ("A = B ;", "(Eq A@0 B@4) to 3"),
    ("A != B ;", "(Ne A@0 B@5) to 3"),
    ("A < B ;", "(Lt A@0 B@4) to 3"),
    ("A <= B ;", "(Le A@0 B@5) to 3"),
    ("A > B ;", "(Gt A@0 B@4) to 3"),
    ("A >= B + 1 ;", "(Ge A@0 [B@5 Add 1000000]) to 5"),
    ("A dans (1) ;", "(A@0 in 1000000..1000000) to 5"),
    (
        "A non dans (B, -2) ;",
        "(A@0 out B@12..B@12 (Neg 2000000)..(Neg 2000000)) to 9",
    ),
    (
        "A dans (-1..3, 3..3) ;",
        "(A@0 in (Neg 1000000)..3000000 3000000..3000000) to 12",
    ),
    ("non A = B ;", "(Not (Eq A@4 B@8)) to 4"),
    ("A et B et C ;", "[A@0 And B@5 And C@10] to 5"),
    ("A ou B et C ;", "[A@0 Or [B@5 And C@10]] to 5"),
    ("non A ou non B ;", "[(Not A@4) Or (Not B@13)] to 5"),
    ("1AJ ;", "1AJ@0 to 1"),
    ("A;B;", "A@0 to 1"),
];

// Texts that don't start with a term.
static NO_TERMS: [(&str, &str); 21] = [
    ("", "none"),
    ("A", "none"),
    ("A :", "none"),
    ("A B ;", "none"),
    ("A + ;", "none"),
    ("(A ;", "none"),
    ("T[A ;", "none"),
    ("T[] ;", "none"),
    ("- - A ;", "none"),
    ("non non A ;", "none"),
    ("A = B = C ;", "none"),
    ("A dans () ;", "none"),
    ("A dans (1..B) ;", "none"),
    ("A dans (-B) ;", "none"),
    ("A non (1) ;", "none"),
    ("si A alors 1 ;", "none"),
    ("si A sinon 1 finsi ;", "none"),
    ("abs(A, B) ;", "none"),
    ("max(A) ;", "none"),
    ("somme(i = : A) ;", "none"),
    ("\"A\" ;", "none"),
];

// Texts with the header at their start and the position after it.
static HEADERS: [(&str, &str); 6] = [
    ("i = V,C :", "{i@0 V C} to 5"),
    ("i = V..V :", "{i@0 V} to 5"),
    ("i=V..X,010;j=1..3:", "{i@0 V..X 010}{j@11 1..3} to 13"),
    (
        "un i dans V,C et un j dans (1..3) :",
        "{i@3 V C}{j@20 1..3} to 15",
    ),
    ("un z dans (9) :", "{z@3 9} to 6"),
    ("a = 123456789 :", "{a@0 123456789} to 3"),
];

// Texts that don't start with a header.
static NO_HEADERS: [(&str, &str); 11] = [
    ("", "none"),
    ("i = V", "none"),
    ("i = V ;", "none"),
    ("i = v :", "none"),
    ("I = V :", "none"),
    ("ij = V :", "none"),
    ("i = 1.5 :", "none"),
    ("i = 1234567890 :", "none"),
    ("i = 1.. :", "none"),
    ("un i dans (1 :", "none"),
    ("i = 1 et un j dans 2 :", "none"),
];

// The tables as functions, so that proofs about their users don't expand them.

fn terms() -> &'static [(&'static str, &'static str)] {
    &TERMS
}

fn no_terms() -> &'static [(&'static str, &'static str)] {
    &NO_TERMS
}

fn headers() -> &'static [(&'static str, &'static str)] {
    &HEADERS
}

fn no_headers() -> &'static [(&'static str, &'static str)] {
    &NO_HEADERS
}

// Adds a name with its byte.
fn add_named(alloc: Global, out: &mut Vec<u8>, word: &[u8], place: Place) {
    add(out, word);
    add(out, b"@");
    add_number(alloc, out, place.byte as i128);
}

fn add_op(alloc: Global, out: &mut Vec<u8>, op: Op) {
    if let Ok(name) = format!(in alloc; "{op:?}") {
        add(out, name.as_bytes());
    }
}

fn add_value(alloc: Global, out: &mut Vec<u8>, value: Value) {
    match value {
        Value::Undef => add(out, b"undefined"),
        Value::Num(amount) => add_number(alloc, out, amount.millionths()),
        Value::Over => add(out, b"over"),
    }
}

fn add_in(out: &mut Vec<u8>, negated: bool) {
    if negated {
        add(out, b" out");
    } else {
        add(out, b" in");
    }
}

fn add_span(out: &mut Vec<u8>, span: &Span) {
    add(out, b" ");
    add(out, span.from.bytes());
    if let Some(to) = &span.to {
        add(out, b"..");
        add(out, to.bytes());
    }
}

fn add_index(alloc: Global, out: &mut Vec<u8>, index: &Index) {
    add(out, b"{");
    add_named(alloc, out, &[index.letter], index.place);
    for span in index.values.as_slice() {
        add_span(out, span);
    }
    add(out, b"}");
}

/// Adds a header.
pub fn add_header(alloc: Global, out: &mut Vec<u8>, header: &Header) {
    for index in header.indexes.as_slice() {
        add_index(alloc, out, index);
    }
}

/// Adds a term.
#[cycle(shown)]
pub fn add_term(alloc: Global, out: &mut Vec<u8>, term: &Term) {
    match &term.node {
        Node::Lit(value) => add_value(alloc, out, *value),
        Node::Named(name, place) => add_named(alloc, out, name.bytes(), *place),
        Node::X(place) => add_named(alloc, out, b"X", *place),
        Node::Cell(name, index, place) => {
            add_named(alloc, out, name.bytes(), *place);
            add(out, b"[");
            add_term(alloc, out, index);
            add(out, b"]");
        }
        Node::Apply(op, arguments) => {
            add(out, b"(");
            add_op(alloc, out, *op);
            add_terms(alloc, out, arguments);
            add(out, b")");
        }
        Node::Chain(first, links) => {
            add(out, b"[");
            add_term(alloc, out, first);
            add_links(alloc, out, links);
            add(out, b"]");
        }
        Node::Among(negated, first, members) => {
            add(out, b"(");
            add_term(alloc, out, first);
            add_in(out, *negated);
            add_members(alloc, out, members);
            add(out, b")");
        }
        Node::Loop(header, body) => {
            add(out, b"(");
            add_header(alloc, out, header);
            add(out, b" ");
            add_term(alloc, out, body);
            add(out, b")");
        }
    }
}

#[cycle(shown)]
fn add_terms(alloc: Global, out: &mut Vec<u8>, terms: &[Term]) {
    for term in terms {
        add(out, b" ");
        add_term(alloc, out, term);
    }
}

#[cycle(shown)]
fn add_links(alloc: Global, out: &mut Vec<u8>, links: &[Link]) {
    for link in links {
        add(out, b" ");
        add_op(alloc, out, link.op);
        add(out, b" ");
        add_term(alloc, out, &link.term);
    }
}

#[cycle(shown)]
fn add_members(alloc: Global, out: &mut Vec<u8>, members: &[Member]) {
    for member in members {
        add(out, b" ");
        add_term(alloc, out, &member.low);
        add(out, b"..");
        add_term(alloc, out, &member.high);
    }
}

/// Adds the position after the form that was read.
pub fn add_end(alloc: Global, out: &mut Vec<u8>, end: usize) {
    add(out, b" to ");
    add_number(alloc, out, end as i128);
}

fn add_fault(out: &mut Vec<u8>, fault: TermFault) {
    match fault {
        TermFault::NoTerm => add(out, b"none"),
        TermFault::Memory => add(out, b"memory"),
    }
}

/// Adds a copy of the term at the start of the tokens, and its end.
pub fn add_read_term(alloc: Global, out: &mut Vec<u8>, tokens: &[Token]) {
    match read_term(alloc, tokens, 0) {
        Ok((term, end)) => {
            if let Ok(copy) = term.copy(alloc) {
                add_term(alloc, out, &copy);
            }
            add_end(alloc, out, end);
        }
        Err(fault) => add_fault(out, fault),
    }
}

/// Adds a copy of the header at the start of the tokens, and its end.
pub fn add_read_header(alloc: Global, out: &mut Vec<u8>, tokens: &[Token]) {
    match read_header(alloc, tokens, 0) {
        Ok((header, end)) => {
            if let Ok(copy) = header.copy(alloc) {
                add_header(alloc, out, &copy);
            }
            add_end(alloc, out, end);
        }
        Err(fault) => add_fault(out, fault),
    }
}

#[test]
fn each_form_of_term(rt: HostRuntime) -> Result<(), Fail> {
    check_all(rt.alloc(), Reading::Term, terms())
}

#[test]
fn no_term_at(rt: HostRuntime) -> Result<(), Fail> {
    check_all(rt.alloc(), Reading::Term, no_terms())
}

#[test]
fn each_form_of_header(rt: HostRuntime) -> Result<(), Fail> {
    check_all(rt.alloc(), Reading::Header, headers())
}

#[test]
fn no_header_at(rt: HostRuntime) -> Result<(), Fail> {
    check_all(rt.alloc(), Reading::Header, no_headers())
}
