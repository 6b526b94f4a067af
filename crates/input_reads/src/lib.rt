//! Dependence analysis of flat programs: the inputs on which the value of a node may depend, given
//! the facts of all nodes.
//!
//! Uses `flat_code` for programs and `definedness` for facts. Knows nothing of rules, households or
//! printed lines.
#![tactic(auto)]

mod found;
mod laws;
mod lists;
mod looks;
mod spread;

pub use found::dependences;
pub use laws::{dependences_are_steps, dependences_suffice};
