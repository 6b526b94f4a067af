//! Amounts, values and the operators of M, exactly: fixed point in millionths, undefined and over.
//!
//! Uses `std` alone, and takes no memory. Knows nothing of terms, tokens or files. Its contracts
//! are definitions over unbounded whole numbers, in `specs/`.
#![tactic(auto)]

mod amount;
mod divide;
pub mod laws;
mod operator;
mod read;
mod table;
mod write;

pub use amount::{Amount, Value};
pub use operator::{Op, arity};
pub use read::{AmountFault, read_amount};
pub use table::apply;
pub use write::write_amount;
