//! Name resolution: from the rules of an application without loops to its base over numbered cells,
//! or the first name that can't be resolved.
//!
//! Uses expanded rules, the symbol table and bases. Knows nothing of files or of values.
#![tactic(auto)]

mod checks;
mod definitions;
mod fault;
mod names;
mod resolving;
mod targets;
mod terms;

pub use fault::ResolveFault;
pub use resolving::resolve;
