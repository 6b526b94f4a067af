//! A session's reply to `why` parses to the lines it was printed from, and `check` accepts it with the same rules and
//! household.
//!
//! Uses the definitions of rules, reports, sessions and checks, and has no code: it proves the contracts of laws.
//! Knows nothing of programs and how they are run.
#![tactic(auto)]

mod laws;

pub use laws::{
    cells_are_named, printed_reasons_are_sound, printed_reports_read_back, reasons_can_be_read,
};
