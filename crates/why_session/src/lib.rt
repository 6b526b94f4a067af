//! A session that also explains why a variable has its value.
//!
//! Uses a session and a reporter, over the same values of the inputs. Knows nothing of files, nor of how an input is
//! cut into lines. Only the start takes memory.
//!
//! After each line that names an input the reporter gets that input's current value, so a rejected edit needs no case
//! of its own.
#![tactic(auto)]

mod explainer;
mod laws;
mod why_line;

pub use explainer::Explainer;
pub use laws::replies_without_why;
