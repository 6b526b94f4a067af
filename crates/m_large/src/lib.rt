//! The rule base and the household of `large N`: N inputs, N sums of which each reads the previous one, and a row for
//! each input.
//!
//! Uses decimal numbers and byte texts alone. Knows nothing of what the texts mean: that they are valid is proved in
//! large_validity.
//!
//! The rule of sum k has the number k + 1. Input k has the remainder of 997 k divided by 5000.
#![tactic(auto)]

mod base;
mod household;

pub use base::large_base;
pub use household::large_household;
pub use m_places::Text;
