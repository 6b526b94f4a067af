//! Names and codes declared twice: the places of both declarations. The program's error line reports only the later
//! one.
ghost use Rattle.std.specs.Prelude.{◌≤◌, length};
ghost use Rattle.m_places.specs.SourceLimits.{TextsAreWithin};

use crate::meeting::text_of;
use m_ast::Item;
use m_places::{Open, Text};
use m_symbols::{DeclareFault, declare};
use rule_base::read_all;
use std::alloc::Global;
use std::test::Fail;
use std::thread::Threads;

// Declarations, and the bytes at which the two with one name begin: a variable's name, an error's name, and an input's
// code.
static TWICE: [(&str, u32, u32); 3] = [
    (
        "B : const = 1 ; A : const = 2 ; B : calculee : \"b\" ;",
        0,
        32,
    ),
    (
        "A : const = 2 ; E : informative : \"\" : \"\" : \"\" : \"\" ; E : anomalie : \"\" : \"\" : \"\" : \"\" ;",
        16,
        54,
    ),
    (
        "A : saisie alias 1AA : \"a\" ; B : saisie alias 1BB : \"b\" ; C : saisie alias 1BB : \"c\" ;",
        29,
        58,
    ),
];

// The table as a function, so that proofs about its users don't expand it.
fn all_twice() -> &'static [(&'static str, u32, u32)] {
    &TWICE
}

// The bytes of both places, for a fault that reports two.
fn bytes_of(fault: &DeclareFault) -> (u32, u32) {
    match fault {
        DeclareFault::DeclaredTwice(_, earlier, later) => (earlier.byte, later.byte),
        DeclareFault::AliasTwice(_, earlier, later) => (earlier.byte, later.byte),
        _ => (0, 0),
    }
}

// Whether these items are rejected for two declarations that begin at these bytes.
fn are_refused(alloc: Global, items: &[Item], earlier: u32, later: u32) -> bool {
    if items.len() >= 4_294_967_296 {
        return false;
    }
    match declare(alloc, items) {
        Ok(_) => false,
        Err(fault) => {
            let (first, second) = bytes_of(&fault);
            first == earlier && second == later
        }
    }
}

// Whether these texts are one whose items are rejected in this way.
fn are_reported<R: Threads + Sync>(
    rt: &R,
    alloc: Global,
    texts: &[Text],
    earlier: u32,
    later: u32,
) -> bool
    requires { TextsAreWithin texts.now }
{
    match read_all(rt, alloc, texts, &Open) {
        Ok(files) => match files.as_slice() {
            [items] => are_refused(alloc, items.as_slice(), earlier, later),
            _ => false,
        },
        Err(_) => false,
    }
}

// Whether these declarations are rejected in this way.
fn is_reported<R: Threads + Sync>(
    rt: &R,
    alloc: Global,
    rules: &[u8],
    earlier: u32,
    later: u32,
) -> bool {
    if rules.len() > 4_096 {
        return false;
    }
    match text_of(alloc, rules) {
        Ok(text) => are_reported(rt, alloc, &[text], earlier, later),
        Err(_) => false,
    }
}

#[test]
fn both_places_are_printed(rt: HostRuntime) -> Result<(), Fail> {
    for (rules, earlier, later) in all_twice() {
        if !is_reported(&rt, rt.alloc(), rules.as_bytes(), *earlier, *later) {
            return Err(Fail::from(*rules));
        }
    }
    Ok(())
}
