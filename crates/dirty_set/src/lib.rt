//! Sets of numbers below a count, as bit sets with two levels of summaries: the least member, and
//! the next above a number, are found in a few steps however rare members are.
//!
//! Uses `std` alone. Knows nothing of what the numbers denote.
#![tactic(auto)]

mod set;
mod words;

pub use set::Bits;
