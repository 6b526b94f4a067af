//! The syntax trees of drivers, and the parser from lines to functions, commands and terms.
//!
//! Uses the lines of mpp_lexer. Knows nothing of variables, nor of what a command does.
//!
//! Blocks are parsed greedily; that this yields the longest prefix is a law on lists of lines
//! (`proofs/BlockLaws`). `taxbenefit` and `cast` have no nodes of their own in the tree.
#![tactic(auto)]

mod blocks;
mod command;
mod cursor;
mod depth;
mod expression;
mod keyword;
mod laws;
mod parse;
mod sentence;
mod term;
mod unread;

pub use command::{Command, CommandNode, Driver, Function, command_made};
pub use laws::{no_driver_and_fault, one_driver, one_fault, one_longest_driver};
pub use parse::parse_driver;
pub use sentence::{Sentence, one_sentence, read_sentence};
pub use term::{CellName, DLink, DNode, DTerm, Kind, term_made};
pub use unread::Unread;
