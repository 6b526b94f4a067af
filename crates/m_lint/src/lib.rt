//! Findings about a rule base, true for all households: cells that are read and never defined,
//! verifications that never stop a run and are never noted, and inputs without effect.
//!
//! Uses the meaning of a base, and the tidy form of its program with facts about its nodes. Knows
//! nothing of commands, files or source text.
//!
//! Checks that never stop are also found under given facts about the inputs.
#![tactic(auto)]

mod cells;
mod checks;
mod facts;
mod finding;
mod found;
mod inputs;
mod labels;
mod laws;
mod loud;
mod print;
mod reads;

pub use checks::never_stopping;
pub use facts::facts_of;
pub use finding::Finding;
pub use found::lint;
pub use laws::{findings_are_true, reads_agree};
pub use print::{print_check, print_findings};
