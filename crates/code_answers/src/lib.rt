//! What code answers, printed as it is made: to a household, to the rows of a table, to cases, and to the household of
//! `large N`. Also runs code files, and rejects malformed households, tables and code files.
//!
//! Uses loaded code of any origin: each call gives the answers of every scheme that the code shows. Knows nothing of
//! sources and rules, nor of the words of the command line, and fetches no file.
#![tactic(auto)]

mod batch;
mod cases;
mod compared;
mod entries;
mod exec;
mod given;
mod large;
mod printers;
mod run;
mod texts;

pub use batch::{answer_batch, rows_of, status_of_rows};
pub use cases::answer_cases;
pub use entries::{code_entry, household_entry, records_entry, report_refusal};
pub use exec::exec_code;
pub use given::read_given;
pub use large::answer_large;
pub use run::answer_run;
pub use texts::give_code;
