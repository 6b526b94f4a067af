//! Inlines a driver and the rules of a base into one flat program, without calls, branches or
//! copies of environments.
//!
//! Uses `driver_core` for drivers over cells, `rule_order` for ordered bases, and `flat_code`.
//! Knows nothing of source text, files or printed lines.
//!
//! A branch becomes a guard, a node that is 1 if the branch is taken and otherwise 0. A check stops
//! the run only if its guard is 1, and a write under a guard is a choice between the new and the
//! old value. A table read at an index is a chain of choices, one for each cell, from the last;
//! before them a test whether the index is at most -1 separates the result 0 from undefined.
//! Nothing recurses over commands or calls: they are processed from a work list. If the base has no
//! rules, the calls of the rules are removed first (`core_left`). An input of type `Truth` is read
//! only through its `And` with itself, which is undefined, 0 or 1.
#![tactic(auto)]

mod begin;
mod blocks;
mod branches;
mod builder;
mod cells;
mod copies;
mod fault;
mod leaves;
mod pass;
mod ruleless;
mod rules;
mod tables;
mod terms;
mod work;
mod writes;

pub use fault::InlineFault;
pub use pass::inline;
