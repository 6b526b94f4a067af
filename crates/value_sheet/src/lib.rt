//! Incremental evaluation of a tidy program: a sheet keeps the values of all nodes, and after a
//! change of inputs recomputes only the nodes that the change touches. The number of steps is part
//! of the contract.
//!
//! Uses `flat_code` for programs and `dirty_set` for marks. Knows nothing of households, codes or
//! printed lines. Only the creation of a sheet takes memory.
#![tactic(auto)]

mod build;
mod chain;
mod evaluate;
mod program;
mod rows;
mod settle;
mod sheet;
mod steps;

pub use rows::Rows;
pub use sheet::Sheet;
pub use steps::Steps;
