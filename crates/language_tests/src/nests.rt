//! How deep terms may be nested.
use crate::texts::{add, add_times, other_at, tokens_of};
use m_lexer::Token;
use m_places::Place;
use m_terms::{depth_fault, read_term};
use std::alloc::Global;
use std::test::Fail;

// The opening and the closing text of a nest, and the byte of the token at which 257 of them are too deep.
static NESTS: [(&str, &str, u32); 5] = [
    ("(", ")", 256),
    ("T[", "]", 513),
    ("si 1 alors ", " finsi", 2_816),
    ("somme(i=1:", ")", 2_565),
    ("1 ou 1 et non 1 = 1 + 1 * -abs(", ")", 7_966),
];

// The table as a function, so that proofs about its users don't expand it.
fn nests() -> &'static [(&'static str, &'static str, u32)] {
    &NESTS
}

// A text of the opening text `count` times, `0`, the closing text `count` times, and `;`.
fn nested(alloc: Global, open: &[u8], count: usize, close: &[u8]) -> Vec<u8> {
    let mut text = Vec::new(alloc);
    add_times(&mut text, open, count);
    add(&mut text, b"0");
    add_times(&mut text, close, count);
    add(&mut text, b";");
    text
}

// Whether all tokens but the last are a term, which is read, copied and dropped.
fn is_read(alloc: Global, tokens: &[Token]) -> bool {
    match read_term(alloc, tokens, 0) {
        Ok((term, to)) => to < tokens.len() && tokens.len() - to == 1 && term.copy(alloc).is_ok(),
        Err(_) => false,
    }
}

// Whether a text has tokens, and none of them is too deep.
fn is_shallow(alloc: Global, text: &[u8]) -> bool {
    match tokens_of(alloc, text) {
        Ok(tokens) => depth_fault(&tokens).is_none() && is_read(alloc, &tokens),
        Err(_) => false,
    }
}

fn is_byte(found: Option<Place>, byte: u32) -> bool {
    match found {
        Some(place) => place.byte == byte,
        None => false,
    }
}

// Whether the first token that is too deep is the one at this byte.
fn is_deep(alloc: Global, text: &[u8], byte: u32) -> bool {
    match tokens_of(alloc, text) {
        Ok(tokens) => is_byte(depth_fault(&tokens), byte),
        Err(_) => false,
    }
}

fn ends_at_256(alloc: Global, open: &[u8], close: &[u8], byte: u32) -> bool {
    is_shallow(alloc, &nested(alloc, open, 256, close))
        && is_deep(alloc, &nested(alloc, open, 257, close), byte)
}

// As `rt try` builds the test, with checks and without optimisation, copying the last of these needs more than the
// default stack.
#[test]
fn nests_of_256_and_257(rt: HostRuntime) -> Result<(), Fail> {
    for (open, close, byte) in nests() {
        if !ends_at_256(rt.alloc(), open.as_bytes(), close.as_bytes(), *byte) {
            return Err(other_at(rt.alloc(), open.as_bytes()));
        }
    }
    Ok(())
}
