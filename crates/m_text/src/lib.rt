//! Bytes and texts: kinds of bytes, words and numbers of M, lines, splitting at a byte, and
//! concatenation.
//!
//! Uses `std` alone. Knows nothing of tokens, nor of what a line means: lists, requests,
//! households, rules and drivers are all parsed with it. Only `append_pieces` takes memory; it is
//! here, and not in the crates of outputs, so that the language doesn't depend on them.
#![tactic(auto)]

mod lines;
mod numbers;
mod parts;
mod pieces;
mod runs;
mod words;

pub use lines::{first_exact_line, first_line, is_text, without_return};
pub use numbers::whole_number;
pub use parts::first_of;
pub use pieces::append_pieces;
pub use runs::{digits_end, is_digit, is_word_byte, line_end, line_feeds, quote_end, word_end};
pub use words::{WordOrNumber, is_word, word_or_number};
