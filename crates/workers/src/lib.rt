//! Parallel work on the parts of a list: a function is applied to each part by a pool of threads,
//! and the results are in the order of the parts.
//!
//! Uses gates of `m_places`, and rayon. Knows nothing of the items of a list, nor of the results.
#![tactic(auto)]

mod parts;
mod results;

pub use parts::{map_parts, part_at, part_size};
pub use results::join_parts;
