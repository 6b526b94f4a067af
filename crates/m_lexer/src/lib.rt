//! The lexer of M: from the bytes of a rule file to its tokens, each with its position, or to its
//! first error.
//!
//! Uses names and places, texts of `m_text`, and amounts for the values of numbers. Knows nothing
//! of files on a disk or of M's grammar. Tokens own their names, so they can go to other threads
//! and outlive the file; ranges of the file would take less time and memory (`bench/lexer`).
#![tactic(auto)]

mod fault;
mod keys;
mod laws;
mod scan;
mod signs;
mod token;

pub use fault::LexFault;
pub use keys::key_of;
pub use laws::{fault_in_place, no_list_and_fault, one_first_fault, one_list, tokens_in_place};
pub use scan::lex;
pub use token::{Key, Kind, Sign, Token};
