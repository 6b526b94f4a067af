//! The vocabulary of every other crate: names, positions in rule files, lists that contracts see as
//! lists, labels of verifications, sources to compile, gates for workers, and the limits of the
//! program.
//!
//! Uses `std` and `arrayvec` alone. Knows nothing of files on a disk, tokens or amounts. The text
//! of a rule file is a type here, so that what is fetched, what `large N` makes and what is
//! compiled are the same.
#![tactic(auto)]

mod gate;
pub mod limits;
mod name;
mod place;
mod seq;
mod shared;
mod source;
mod verification;

pub use gate::{Gate, Open};
pub use name::{Name, Word};
pub use place::Place;
pub use seq::Seq;
pub use shared::SharedName;
pub use source::{Source, Text};
pub use verification::{ErrorKind, Label};
