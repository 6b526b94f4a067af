//! Resolves the names of a driver: from its syntax trees to a driver over the cells of the declared
//! variables, or the first error.
//!
//! Uses the trees of drivers, the declarations, drivers over cells, and the search for an order of
//! rules, which finds cycles of calls. Knows nothing of a source's rules, nor of what a command
//! does.
#![tactic(auto)]

mod calls;
mod commands;
mod fault;
mod functions;
mod laws;
mod names;
mod plain;
mod resolving;
mod rings;
mod scope;
mod terms;

pub use fault::CoreFault;
pub use laws::{no_core_and_fault, one_core, one_fault, received_few, received_once};
pub use plain::plain_driver;
pub use resolving::resolve_driver;
