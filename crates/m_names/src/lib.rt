//! Names in the order in which they were added, each found by its bytes in constant time.
//!
//! Uses names of `m_places`, a hash map and SHA-512. Knows nothing of what the names denote: it
//! numbers variables, codes of inputs and targets of rules. The author of a rule file chooses its
//! names, so they are hashed under a key that is made of all of them.
#![tactic(auto)]

mod fault;
mod hasher;
mod key;
mod names;

pub use fault::NamesFault;
pub use key::{Key, NamesDigest};
pub use names::{Names, has_name};
