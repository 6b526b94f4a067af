//! Facts about the values of a program's nodes: an abstract interpretation of each operator that
//! derives the possible values of its result from those of its arguments.
//!
//! Uses the values and operators of m_fixed alone. Knows nothing of programs, and takes no memory.
//!
//! A fact records whether undefined is possible, whether Over is, and the interval of the possible
//! numbers. Its invariants are hidden by its model. Bounds of products and quotients are computed
//! from the ends by `apply`; a result that overflows counts as the nearest number beyond the
//! amounts.
#![tactic(auto)]

mod fact;
pub mod laws;
mod operator;
mod range;
mod results;

pub use fact::{Fact, fact_of_input, fact_of_value};
pub use operator::fact_of;
