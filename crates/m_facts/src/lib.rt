//! Findings about the requested cells of a program, for all households within given facts of the
//! inputs: the possible values, the verifications that never stop a run and are never noted, and
//! the inputs on which a cell may depend.
//!
//! Uses `definedness` for facts, `input_reads` for dependences and `m_lint` for verifications.
//! Knows nothing of commands, files, source text or ranges.
//!
//! The facts of all nodes are computed once, and all findings follow from them. A cell that is
//! requested twice has two lines of possible values, but its dependences are computed and printed
//! once, for the first output with its name. The law of dependences holds for every output.
#![tactic(auto)]

mod find;
mod firsts;
mod found;
mod laws;
mod line;
mod print;

pub use find::find_facts;
pub use found::FactsFound;
pub use laws::{dependences_suffice, silent_checks_never_stop, values_are_possible};
pub use print::print_facts;
