//! A topological order of the definitions of a base: each after those that it reads; or a cycle,
//! which proves that there is none.
//!
//! Uses the semantics of bases. Knows nothing of source text, names of variables or printed lines.
#![tactic(auto)]

mod cycle;
mod fault;
mod laws;
mod ordered;
mod reads;
mod search;

pub use fault::OrderFault;
pub use laws::ordered_has_no_cycle;
pub use ordered::{Ordered, order};
