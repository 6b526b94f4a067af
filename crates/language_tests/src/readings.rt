//! What each of the reading calls reads of a text, as a text.
use crate::declarations::{add_applications, add_declaration};
use crate::drivers::add_driver;
use crate::items::add_items;
use crate::lines::add_lines;
use crate::terms::{add_read_header, add_read_term};
use crate::texts::{other_at, tokens_of};
use crate::tokens::{add_fault, add_tokens};
use m_lexer::Token;
use std::alloc::Global;
use std::test::Fail;

/// The kinds of forms that a text is read as.
#[derive(Clone, Copy)]
pub enum Reading {
    Tokens,
    Term,
    Header,
    Declaration,
    Applications,
    Items,
    Lines,
    Driver,
}

fn add_read(alloc: Global, out: &mut Vec<u8>, reading: Reading, tokens: &[Token]) {
    match reading {
        Reading::Term => add_read_term(alloc, out, tokens),
        Reading::Header => add_read_header(alloc, out, tokens),
        Reading::Declaration => add_declaration(alloc, out, tokens),
        Reading::Applications => add_applications(alloc, out, tokens),
        Reading::Items => add_items(alloc, out, tokens),
        _ => add_tokens(alloc, out, tokens),
    }
}

// Adds what is read of a text's tokens.
fn add_reading(alloc: Global, out: &mut Vec<u8>, reading: Reading, text: &[u8]) {
    match tokens_of(alloc, text) {
        Ok(tokens) => add_read(alloc, out, reading, &tokens),
        Err(fault) => add_fault(alloc, out, fault),
    }
}

/// Whether reading a text gives this.
pub fn is_read(alloc: Global, reading: Reading, text: &[u8], wanted: &[u8]) -> bool {
    let mut out = Vec::new(alloc);
    match reading {
        Reading::Lines => add_lines(alloc, &mut out, text),
        Reading::Driver => add_driver(alloc, &mut out, text),
        _ => add_reading(alloc, &mut out, reading, text),
    }
    out.as_slice() == wanted
}

/// Fails at the first of these texts with another result.
pub fn check_all(
    alloc: Global,
    reading: Reading,
    rows: &[(&'static str, &'static str)],
) -> Result<(), Fail> {
    for (text, wanted) in rows {
        if !is_read(alloc, reading, text.as_bytes(), wanted.as_bytes()) {
            return Err(other_at(alloc, text.as_bytes()));
        }
    }
    Ok(())
}
