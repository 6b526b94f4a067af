//! The commands of `m_tax`: the words of the command line, the order in which files are fetched, and the answers.
//!
//! Uses command_plans for what all commands share, and the crates of answers. Knows nothing of files, input and output
//! but the traits of `m_ports`.
//!
//! `m_tax` is the one call that a program makes, and carries its theorem. Its clauses follow from the `Course` of a
//! call. In the proofs `Way` is how any work was answered, in seven constructors; `IsWorkOf` relates a command to its
//! work.
#![tactic(auto)]

mod answer;
mod command;
mod gather;
mod laws;
mod program;
mod work;

pub use command_plans::Status;
pub use laws::{executed_as_run, linted_truly};
pub use program::{m_tax, one_output};
