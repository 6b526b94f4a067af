//! The expansion of loops: every `pour`, every `somme` and every `T[X] = ..` of a declared table is
//! replaced by its instances, for the items of one application.
//!
//! Uses loops as lists of instances and the symbol table. Knows nothing of cell numbers or values.
#![tactic(auto)]

mod build;
mod definitions;
mod fault;
mod faults;
mod formulas;
mod items;
mod joined;
mod parts;
mod template;
mod terms;
mod words;

pub use fault::ExpandFault;
pub use items::expand;
