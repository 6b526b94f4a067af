//! Lines of drivers with their tokens, and the first malformed line.
use crate::readings::{Reading, check_all, is_read};
use crate::texts::{add, add_number, add_word};
use m_places::limits::FILE_BYTES;
use mpp_lexer::{DriverFault, DriverPiece, DriverSign, Line, lex_driver};
use std::alloc::Global;
use std::test::Fail;

// Texts that have lines: for each line its number, its indentation and its tokens, a word after `word` and a number
// after its millionths.
static LINES: [(&str, &str); 9] = [
    ("", ""),
    ("\n   \r\n# a tab\t and \u{e9}\n  # more\n", ""),
    (
        "main():\n  IRN = 1\n",
        "1:0 word main OpenParen CloseParen Colon\n2:2 word IRN Assign number 1000000 1\n",
    ),
    // The longest token: `<-`, and not `<` and `-`.
    ("\n A <-1", "2:1 word A Receive number 1000000 1\n"),
    ("A< -1", "1:0 word A Less Minus number 1000000 1\n"),
    (
        "===!=<=>=<>",
        "1:0 Equal Assign NotEqual LessEqual GreaterEqual Less Greater\n",
    ),
    (
        "+-*/,[1AJ]#]\r\n",
        "1:0 Plus Minus Star Slash Comma OpenBracket word 1AJ CloseBracket\n",
    ),
    (
        "10000000000000.0000004",
        "1:0 number 10000000000000000000 10000000000000.0000004\n",
    ),
    // Reserved words are words here.
    (
        "del else 1.5A",
        "1:0 word del word else number 1500000 1.5 word A\n",
    ),
];

// Texts that have none, and the line of the error.
static FAULTS: [(&str, &str); 9] = [
    ("main():\n\tIRN = 1", "token 2"),
    ("A = 1\t", "token 1"),
    ("A\r", "token 1"),
    ("A = 1\r \n", "token 1"),
    ("!", "token 1"),
    ("\n\nA = 1.\n\t", "token 3"),
    ("A ; B", "token 1"),
    ("\n10000000000000.0000005", "token 2"),
    ("A # \t\n\u{e9}", "token 2"),
];

// The tables as functions, so that proofs about their users don't expand them.

fn all_lines() -> &'static [(&'static str, &'static str)] {
    &LINES
}

fn all_faults() -> &'static [(&'static str, &'static str)] {
    &FAULTS
}

fn add_sign(alloc: Global, out: &mut Vec<u8>, sign: DriverSign) {
    if let Ok(name) = format!(in alloc; " {sign:?}") {
        add(out, name.as_bytes());
    }
}

fn add_piece(alloc: Global, out: &mut Vec<u8>, piece: &DriverPiece) {
    match piece {
        DriverPiece::Word(name) => {
            add(out, b" word");
            add_word(out, name.bytes());
        }
        DriverPiece::Number(amount, name) => {
            add(out, b" number ");
            add_number(alloc, out, amount.millionths());
            add_word(out, name.bytes());
        }
        DriverPiece::Sign(sign) => add_sign(alloc, out, *sign),
    }
}

fn add_line(alloc: Global, out: &mut Vec<u8>, line: &Line) {
    add_number(alloc, out, line.number as i128);
    add(out, b":");
    add_number(alloc, out, line.indent as i128);
    for piece in line.tokens.as_slice() {
        add_piece(alloc, out, piece);
    }
    add(out, b"\n");
}

fn add_all(alloc: Global, out: &mut Vec<u8>, lines: &[Line]) {
    for line in lines {
        add_line(alloc, out, line);
    }
}

fn add_at(alloc: Global, out: &mut Vec<u8>, words: &[u8], line: u32) {
    add(out, words);
    add_number(alloc, out, line as i128);
}

/// Adds the error of a text that is no driver, or has no lines.
pub fn add_fault(alloc: Global, out: &mut Vec<u8>, fault: DriverFault) {
    match fault {
        DriverFault::DriverToken(line) => add_at(alloc, out, b"token ", line),
        DriverFault::DriverTooDeep(line) => add_at(alloc, out, b"deep ", line),
        DriverFault::DriverSyntax(line) => add_at(alloc, out, b"syntax ", line),
        DriverFault::Memory => add(out, b"memory"),
    }
}

/// Adds the lines of a text.
pub fn add_lines(alloc: Global, out: &mut Vec<u8>, text: &[u8]) {
    if text.len() as u64 > FILE_BYTES {
        return;
    }
    match lex_driver(alloc, text) {
        Ok(lines) => add_all(alloc, out, &lines),
        Err(fault) => add_fault(alloc, out, fault),
    }
}

#[test]
fn lines_with_tokens(rt: HostRuntime) -> Result<(), Fail> {
    check_all(rt.alloc(), Reading::Lines, all_lines())
}

#[test]
fn first_lines_without(rt: HostRuntime) -> Result<(), Fail> {
    check_all(rt.alloc(), Reading::Lines, all_faults())
}

#[test]
fn many_lines(rt: HostRuntime) -> Result<(), Fail> {
    let mut text = vec![in rt.alloc(); b'\n'; 1_000_001]?;
    text[1_000_000] = b'A';
    assert!(rt; is_read(rt.alloc(), Reading::Lines, &text, b"1000001:0 word A\n"));
    Ok(())
}
