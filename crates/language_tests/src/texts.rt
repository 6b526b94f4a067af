//! Texts that the tests read and write.
use m_lexer::{LexFault, Token, lex};
use m_places::limits::FILE_BYTES;
use m_places::{Name, Place};
use std::alloc::Global;
use std::test::Fail;

// The tokens of a text.
pub fn tokens_of(alloc: Global, text: &[u8]) -> Result<Vec<Token>, LexFault> {
    if text.len() as u64 > FILE_BYTES {
        return Err(LexFault::Memory);
    }
    lex(alloc, text, 7)
}

// Adds bytes. If memory runs out the text is unchanged, so it differs from the expected one.
pub fn add(text: &mut Vec<u8>, bytes: &[u8]) {
    let _added = text.extend_from_slice(bytes);
}

// Adds a word `count` times.
pub fn add_times(text: &mut Vec<u8>, word: &[u8], count: usize) {
    for _ in 0..count {
        add(text, word);
    }
}

pub fn add_number(alloc: Global, text: &mut Vec<u8>, number: i128) {
    if let Ok(digits) = format!(in alloc; "{number}") {
        add(text, digits.as_bytes());
    }
}

pub fn add_word(text: &mut Vec<u8>, word: &[u8]) {
    add(text, b" ");
    add(text, word);
}

pub fn add_words(text: &mut Vec<u8>, words: &[Name]) {
    for word in words {
        add_word(text, word.bytes());
    }
}

// Adds the byte and the line of a place, or nothing for a place in a file other than 7.
pub fn add_place(alloc: Global, text: &mut Vec<u8>, place: Place) {
    if place.file == 7 {
        add(text, b" ");
        add_number(alloc, text, place.byte as i128);
        add(text, b":");
        add_number(alloc, text, place.line as i128);
    }
}

// Fails at this text.
pub fn other_at(alloc: Global, text: &[u8]) -> Fail {
    match format!(in alloc; "another answer at {text:?}") {
        Ok(reported) => Fail::from(reported),
        Err(_) => Fail::from("another answer"),
    }
}
