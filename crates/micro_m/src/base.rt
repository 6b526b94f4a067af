//! Bases: all rules of an application over numbered cells.

use crate::MTerm;
use m_fixed::Amount;
use m_places::{Label, Place, Seq};

/// The rules of an application over cells numbered from 0: the constants, each definition with the
/// place of its formula, and each check with the place of its `si`, all in the order of the source.
///
/// `IREV = REV - 1000` with `REV` as cell 0 and `IREV` as cell 1 is a base of two cells with one
/// definition, of cell 1.
#[derive(Drop)]
pub struct Base {
    /// The count of cells.
    pub cells: u32,
    /// The cells of constants, and their amounts.
    pub constants: Seq<(u32, Amount)>,
    /// Each defined cell, its term, and the place of the formula.
    pub definitions: Seq<(u32, MTerm, Place)>,
    /// Each condition, the number of the check's label, and the place of the check.
    pub checks: Seq<(MTerm, u32, Place)>,
    /// The lines that failing checks print.
    pub labels: Seq<Label>,
}

/// The first check that stops a run, by the number of its label.
#[derive(Clone, Copy, Debug, PartialEq, Eq)]
pub enum Failure {
    /// The condition is a number other than 0.
    Failed(u32),
    /// The condition is over.
    Over(u32),
}
