//! The parser of terms and loop headers: from a position in the tokens to the tree and the position
//! after it.
//!
//! Uses tokens and trees. Knows nothing of items, or of values.
#![tactic(auto)]

mod build;
mod cursor;
mod depth;
mod expression;
mod fault;
mod header;
mod member;
mod reads;

pub use depth::depth_fault;
pub use fault::TermFault;
pub use reads::{one_header, one_term, read_header, read_term, shallow_terms};
