//! Cuts a driver into lines with their numbers, indentations and tokens, or reports the first line
//! that has no tokenization.
//!
//! Uses texts, names, and amounts for the values of numbers. Knows nothing of commands, nor of
//! which lines belong together.
#![tactic(auto)]

mod driver;
mod fault;
mod laws;
mod line;
mod piece;
mod signs;

pub use driver::lex_driver;
pub use fault::DriverFault;
pub use laws::{no_lines_and_fault, one_fault, one_list_of_lines};
pub use piece::{DriverPiece, DriverSign, Line};
