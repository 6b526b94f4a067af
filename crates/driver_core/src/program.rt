//! A whole driver over cells.

use crate::CCommand;
use m_places::{Name, Seq};

/// A driver over cells numbered from 0: the names and bodies of its functions, numbered by their
/// positions, and which of them is `main`.
#[derive(Drop)]
pub struct Core {
    /// The number of cells.
    pub cells: u32,
    /// The names of the functions, in order.
    pub names: Seq<Name>,
    /// The commands of each function, in order.
    pub bodies: Seq<Seq<CCommand>>,
    /// The number of `main`, with which a run begins.
    pub main: u32,
}
