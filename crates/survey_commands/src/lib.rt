//! The commands of `m_survey`, which are for populations: a table of households as CSV, for a source or a code file,
//! and facts that hold for all households within ranges.
//!
//! Uses command_plans for what all commands share, and code_answers for answers of code. Knows nothing of files and
//! output but the traits of `m_ports`, and reads no input.
//!
//! `m_survey` is the one call that a program makes, and carries its theorem.
#![tactic(auto)]

mod answer;
mod code;
mod columns;
mod command;
mod csv;
mod facts;
mod found;
mod gather;
pub mod laws;
mod notes;
mod program;
mod ranges;
mod records;
mod source;
mod stops;
mod table;
mod values;
mod work;

pub use command_plans::Status;
pub use program::{m_survey, one_output};
