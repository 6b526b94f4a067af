//! Flat programs, the form that a program has from the passes to register code: nodes computed in
//! order, checks and outputs, without jumps. The crate defines their semantics, the facts of their
//! nodes and their tidy form.
//!
//! Uses `m_fixed`, `observables` and `definedness`. Knows nothing of rules, drivers or printed
//! lines.
#![tactic(auto)]

mod hash;
mod laws;
mod program;
mod run;
mod tidy;
pub mod touched;

pub use laws::{facts_hold, passes_compose};
pub use program::{Check, Flat, Node};
pub use run::{is_one, run_flat, stop_among, stop_at, value_of, values_of};
pub use tidy::Tidy;
