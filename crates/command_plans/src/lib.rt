//! Commands as plans: which files a command requests, in order, and where it rejects them. Reads the list file and
//! gathers the files of a source.
//!
//! Uses files and output only as the traits of `m_ports`. Knows nothing of the single commands, nor of the contents of
//! files other than the list.
//!
//! It has what all commands share: statuses, errors, what ends a command before its files are gathered, the call that
//! fetches a file, and the calls that print a line.
//!
//! A call follows a plan if there is a walk (`Walks`) along the plan with the attempts and the result of the call.
//! Walks are composed by `along_then` and, where the first plan failed, by `exits_ended`.
#![tactic(auto)]

mod ending;
mod files;
mod gather;
mod lines;
mod list_fault;
mod list_laws;
mod listing;
mod read_listing;
mod refusal;
mod source;
mod status;

pub use ending::Ending;
pub use files::fetch;
pub use gather::{gather_code_and_file, gather_optional, gather_source, gather_source_and_file};
pub use lines::{print_fault, printed, report_ending};
pub use list_laws::{list_meaning, one_reading};
pub use refusal::Refusal;
pub use source::{SourceNames, names_of};
pub use status::Status;
