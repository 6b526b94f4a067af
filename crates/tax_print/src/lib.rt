//! The lines that the program prints, byte for byte and without memory: the notes, values and stops
//! of a household, and the line of each error.
//!
//! Uses the outputs of `m_ports` and the answers and interfaces of `observables`. Knows nothing of
//! files or commands, nor of what an error means: each crate maps its own errors to a `Fault`, with
//! their words, and one definition, `fault_line`, gives the line.
#![tactic(auto)]

mod answer;
mod fault;
mod fault_line;
mod note;
mod stop;
mod value;

pub use answer::{print_answer, print_household};
pub use fault::Fault;
pub use fault_line::give_fault;
pub use note::reported_note;
pub use stop::{label_number, print_stop};
pub use value::print_values;
