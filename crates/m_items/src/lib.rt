//! The parser of rule files: from tokens to the list of items, or the first error and its place.
//!
//! Uses tokens, trees and the readers of terms. Knows nothing of bytes, of files, or of what an
//! item means. Declarations and rules are separate modules, and neither uses the other.
#![tactic(auto)]

mod attributes;
mod cursor;
mod declaration_laws;
mod declaration_reads;
mod declarations;
mod error;
mod expression;
mod fault;
mod formula;
mod head;
mod item_fault;
mod items;
mod laws;
mod lists;
mod reads;
mod rule;
mod variable;
mod verification;
mod whole;

pub use declaration_laws::{declarations_begin, one_declaration, one_list_of_applications};
pub use declaration_reads::{read_applications, read_declaration};
pub use fault::ParseFault;
pub use item_fault::ItemFault;
pub use laws::{items_or_fault, no_items_and_fault, one_fault, one_item_list};
pub use reads::parse;
