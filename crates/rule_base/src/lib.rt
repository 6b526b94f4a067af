//! From the texts of rule files to the ordered base of one application, or the error of the
//! earliest step that fails: lexing, parsing, declarations, loops, names, cycles.
//!
//! Uses the crates of these steps, and workers that read the files in parallel. Knows nothing of
//! files on a disk, drivers or households.
#![tactic(auto)]

mod base;
mod each_file;
mod fault;
mod files;
mod laws;
mod read;
mod read_fault;
mod read_laws;

pub use base::{RuleBase, rule_base};
pub use fault::RuleFault;
pub use laws::{base_is_small, no_base_and_fault, one_base, one_fault};
pub use read::read_all;
pub use read_fault::ReadFault;
pub use read_laws::{files_or_fault, one_file_fault, one_reading};
