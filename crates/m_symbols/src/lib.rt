//! The symbol table: declared variables, inputs and errors by name, code and number; cells and
//! their names; and the cells that a file of requests names.
//!
//! Uses the trees of items and interned names. Knows nothing of rules, of households, or of the
//! values of cells.
#![tactic(auto)]

mod cells;
mod declaring;
mod fault;
mod lookup;
mod names;
mod request_fault;
mod requests;
mod spans;
mod symbols;
mod variable;

pub use cells::find_request;
pub use declaring::declare;
pub use fault::DeclareFault;
pub use names::{cell_name, cell_names};
pub use request_fault::RequestFault;
pub use requests::read_requests;
pub use spans::{Span, cell_at_index, cell_without_index, span_of};
pub use symbols::Symbols;
pub use variable::Variable;
