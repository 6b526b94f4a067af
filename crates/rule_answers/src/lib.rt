//! Answers about the rules of a source, printed as they are made: whether a report is a sound derivation over them,
//! and findings.
//!
//! Uses the rule base, the compiler, and the reports and findings over them; runs no program. Knows nothing of the
//! words of the command line, and fetches no file.
#![tactic(auto)]

mod check;
mod entries;
mod findings;
mod lint;
mod start;

pub use check::check_source;
pub use entries::report_source;
pub use lint::lint_source;
