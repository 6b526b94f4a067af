//! The compiler: from a source, as bytes, to a tidy program and its register code, or the error of
//! the earliest faulty step.
//!
//! Uses the crates of the steps, which it runs in order, and maps each of their errors to its
//! message. Knows nothing of files on a disk, of the command line or of households.
#![tactic(auto)]

mod base;
mod compiling;
mod entries;
mod face;
mod fault;
mod laws;

pub use base::compile_base;
pub use compiling::{Program, compile_with, compile_with_rules};
pub use entries::fault_entry;
pub use face::inputs_of;
pub use fault::SourceFault;
pub use laws::{
    base_fault_of_source, no_base_and_base_fault, no_valid_and_fault, one_base_fault, one_fault,
    one_rules, one_validity,
};
