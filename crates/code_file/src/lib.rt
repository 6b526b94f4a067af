//! Code files: the text form of register code with its face. Each has exactly one spelling.
//!
//! Uses `reg_machine` for code and `observables` for faces. Knows nothing of files on a disk,
//! commands, rules or households.
//!
//! The writer reads all numbers before it writes (`fits`), so that the proof shows that the text
//! can be read again. The first fault is defined without a parser (`Stops`): a non-empty rest after
//! `end` is a bad line, and a file without the line feed after `end` ended early.
#![tactic(auto)]

mod cut;
mod face_lines;
mod face_words;
mod fault;
mod fits;
mod instr_lines;
mod laws;
mod loaded;
mod names;
mod numbers;
mod read;
mod runs;
mod spelled;
mod words;
mod write;

pub use fault::CodeFault;
pub use laws::{no_fault_of_form, one_fault, one_form};
pub use loaded::Loaded;
pub use read::read_code;
pub use write::write_code;
