//! Numbers nodes so that equal nodes share one number: a hash table of nodes, for common
//! subexpression elimination.
//!
//! Uses `flat_code` for nodes and `sha2` for keys. Knows nothing of what nodes compute.
//!
//! The author of a rule file chooses its nodes. They are hashed under a key that is derived from a
//! digest of all nodes, so no file can make its nodes collide.
#![tactic(auto)]

mod chains;
mod key;
mod table;

pub use key::{Key, NodesDigest};
pub use table::NodeTable;
