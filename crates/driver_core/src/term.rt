//! Terms of drivers over cells.

ghost use Rattle.driver_core.specs.Leaves.{leaf_tree};
ghost use Rattle.driver_core.specs.inner.LeafLaws.{leaf_reads};

use crate::kind_cells::KindCells;
use micro_m::{Leaf, MTerm};

/// A term of a driver. `cast(A)` is `A + 0`.
pub type CTerm = MTerm<CLeaf>;

/// What a term of a driver reads.
#[derive(Drop)]
pub enum CLeaf {
    /// A cell's value.
    Cell(u32),
    /// Whether one of these cells, those of the inputs of a kind in order of declaration, is
    /// defined.
    Exists(KindCells),
}

impl Leaf for CLeaf {
    ghost leaf_tree = { leaf_tree };

    ghost leaf_reads = { leaf_reads };
}
