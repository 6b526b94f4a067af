//! The semantics of a base of rules: its terms after name resolution and expansion, and the values
//! of its cells.
//!
//! Uses values and their operators. Knows nothing of source text, names of variables, files or
//! printed lines. It defines no order of evaluation: the values are the unique solution of the
//! definitions, read as equations.
#![tactic(auto)]

mod base;
mod laws;
mod leaf;
mod slow;
mod table;
mod term;
mod value;

pub use base::{Base, Failure};
pub use laws::{further_turns_change_nothing, only_reads_matter, solution_is_one, values_solve};
pub use leaf::Leaf;
pub use m_places::{ErrorKind, Label};
pub use slow::slow_value;
pub use table::{Picked, pick};
pub use term::{MNode, MTerm, Step};
pub use value::{first_failing, is_stopping, kind_at, term_value};
