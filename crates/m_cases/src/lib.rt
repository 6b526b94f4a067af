//! Tables of cases: households, the expected values of their answers, and which expectations aren't
//! met.
//!
//! Uses the records, rows and index of codes of `household`. Knows nothing of rules or of how an
//! answer is computed.
//!
//! Within the reader outputs are numbered among those with names; results have the numbers of the
//! face, where the notes come first.
#![tactic(auto)]

mod cases;
mod columns;
mod expected;
mod fault;
pub mod laws;
mod mismatches;
mod outputs;

pub use cases::{Cases, read_cases};
pub use expected::Expected;
pub use fault::CasesFault;
pub use mismatches::{met, print_count, print_mismatches};
