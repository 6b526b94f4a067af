//! Loops as lists of instances: the values of a header's indexes, the bindings of letters in each
//! instance, and the substitution of letters in words.
//!
//! Uses the trees of headers. Knows nothing of the bodies of loops.
#![tactic(auto)]

mod header;
mod letters;
mod single;
mod values;

pub use header::{headers_count, instance_count, joined_indexes, kept_indexes, repeated_letters};
pub use letters::{bound_values, is_free, no_letters, replaced_within};
pub use single::{bind_singles, only_value, put_back, single_count};
pub use values::{MANY, has_bad_span, index_count, index_values, is_digits, number};
