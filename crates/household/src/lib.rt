//! Households and tables of households: which input has which amount.
//!
//! Uses the crate `csv` to read records, and inputs with their codes and types (`observables`).
//! Knows nothing of what is computed from the amounts.
//!
//! A table without quotation marks is read in parts by several workers (`parts`); every part begins
//! at a line end, which is part of its bytes, since at the start of a part `csv` would drop a byte
//! order mark. Filled cells are counted before they are read, so that a row takes only the memory
//! that it needs.
#![tactic(auto)]

mod amounts;
mod codes;
mod cuts;
mod fault;
pub mod laws;
mod marks;
mod pair;
mod parts;
mod read;
mod reader;
pub mod records;
mod table;

pub use amounts::{values, values_into};
pub use codes::Codes;
pub use fault::HouseholdFault;
pub use marks::mark;
pub use pair::Pair;
pub use read::{Household, read_household};
pub use table::{Row, is_label, read_cell, read_table};
