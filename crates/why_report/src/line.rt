//! A line of a derivation.

use m_fixed::Value;

/// A line of a derivation: a cell and its value. If cell 0 is `REV` and cell 1 is `IRN`, the
/// derivation `REV = 2500.5`, `IRN = 2500.5` has the cells 0 and 1.
#[derive(Clone, Copy, Debug, PartialEq, Eq)]
pub struct ReportLine {
    /// The cell's number.
    pub cell: u32,
    /// Its value.
    pub value: Value,
}
