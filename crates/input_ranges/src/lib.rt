//! Ranges of inputs: which values a household within them may give each input.
//!
//! Uses the records and the index of codes of `household`, and the facts of `definedness`. Knows
//! nothing of what is computed from the values.
#![tactic(auto)]

mod bounds;
mod given;
mod header;
pub mod laws;
mod ranges;
mod read;

pub use ranges::type_facts;
pub use read::read_ranges;
