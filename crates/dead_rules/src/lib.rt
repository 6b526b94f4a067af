//! Turns a flat program into its tidy form: folded and shared, without dead nodes and without
//! duplicate checks.
//!
//! Uses `flat_code` for the form, `fold_terms` and `common_terms` for the nodes. Knows nothing of
//! how a program was made or is run.
#![tactic(auto)]

mod compact;
mod firsts;
mod fold;
mod mark;
mod moved;
mod whole;

pub use whole::tidy;
