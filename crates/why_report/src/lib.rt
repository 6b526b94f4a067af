//! Derivations, which explain why a cell has its value: finding one, checking that one is sound,
//! and their text form.
//!
//! Uses the meaning of a base and the declarations. Knows nothing of commands, files or drivers.
//!
//! The check needs no order of the definitions; a reporter finds derivations along one. A sound
//! derivation reaches no cycle, so its law requires nothing of the base.
#![tactic(auto)]

mod cell_names;
mod check;
mod evaluate;
mod fault;
mod flatten;
mod laws;
mod line;
mod lines;
mod marks;
mod needed;
mod packed;
mod part;
mod places;
mod plan;
mod print;
mod read;
mod reporter;
mod room;
mod standing;
mod starts;
mod terms;

pub use cell_names::CellNames;
pub use check::first_unsound;
pub use fault::ReportFault;
pub use laws::{sound_lines_hold_values, why_lines_are_a_reason};
pub use line::ReportLine;
pub use print::print_report;
pub use read::read_report;
pub use reporter::Reporter;
