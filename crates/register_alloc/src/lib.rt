//! The register allocator: turns a tidy flat program into register code with spill slots.
//!
//! Uses `flat_code` for programs and `reg_machine` for code. Knows nothing of rules, drivers, files
//! or printed lines, nor what operators compute.
//!
//! The code is made by the builder of `reg_machine`, which rejects every wrong instruction. If no
//! register is free, the victim is the register whose node is read last.
#![tactic(auto)]

mod chain;
mod checks;
mod clear;
mod moment;
mod room;
mod slots;
mod sources;
mod table;
mod task;
mod turn;

pub use moment::MOST;
pub use turn::allocate;
