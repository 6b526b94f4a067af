//! Inputs of a kind: those whose last value of an attribute is one of some values.
use crate::texts::tokens_of;
use m_ast::Item;
use m_fixed::Amount;
use m_items::parse;
use m_symbols::{Symbols, declare};
use std::alloc::Global;

// A is an input whose last `avfisc` is its second; B is computed; C is an input with another attribute.
static DECLARATIONS: &str = "A : saisie avfisc = 1 classe = 3 avfisc = 2 alias 1AA : \"a\" ;
B : calculee avfisc = 2 : \"b\" ;
C : saisie classe = 0 alias 1CC : \"c\" ;";

// The text as a function, so that proofs about its users don't expand it.
fn declarations() -> &'static str {
    DECLARATIONS
}

// Whether the variable of this number exists and is of the kind.
fn is_of(symbols: &Symbols, v: u32, attribute: &[u8], values: &[Amount]) -> bool {
    v < symbols.count() && symbols.in_kind(v, attribute, values)
}

fn are_of_kinds(symbols: &Symbols, zero: Amount, one: Amount, two: Amount) -> bool {
    is_of(symbols, 0, b"avfisc", &[one, two])
        && is_of(symbols, 0, b"avfisc", &[two])
        && !is_of(symbols, 0, b"avfisc", &[one, zero])
        && !is_of(symbols, 0, b"avfisc", &[])
        && !is_of(symbols, 0, b"classe", &[two])
        && !is_of(symbols, 1, b"avfisc", &[two])
        && is_of(symbols, 2, b"classe", &[zero])
        && !is_of(symbols, 2, b"avfisc", &[zero])
}

fn check_symbols(symbols: &Symbols) -> bool {
    match (Amount::new(1_000_000), Amount::new(2_000_000)) {
        (Some(one), Some(two)) => are_of_kinds(symbols, Amount::zero(), one, two),
        _ => false,
    }
}

fn check_items(alloc: Global, items: &[Item]) -> bool {
    if items.len() >= 4_294_967_296 {
        return false;
    }
    match declare(alloc, items) {
        Ok(symbols) => check_symbols(&symbols),
        Err(_) => false,
    }
}

fn check(alloc: Global) -> bool {
    let Ok(tokens) = tokens_of(alloc, declarations().as_bytes()) else {
        return false;
    };
    match parse(alloc, &tokens) {
        Ok(items) => check_items(alloc, items.as_slice()),
        Err(_) => false,
    }
}

#[test]
fn inputs_are_of_kinds(rt: HostRuntime) {
    assert!(rt; check(rt.alloc()));
}
