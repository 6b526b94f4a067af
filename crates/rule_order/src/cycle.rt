//! A cycle, rotated to begin with its least cell.

ghost use Rattle.std.specs.Prelude.{◌≡◌, ◌<◌, ◌≤◌, ◌^◌, ◌++◌, ℕ, true, length, map, All, IfOk, OnOk, slice_index_or};
ghost use Rattle.micro_m.specs.declared.base.Base.{Base};
ghost use Rattle.micro_m.specs.Bases.{is_among, AreDistinctCells};
ghost use Rattle.micro_m.specs.Reads.{Reads, IsCycle, BeginsWithLeast};
ghost use Rattle.rule_order.specs.inner.Marks.{ReadsNext, LastReads, cells_of};

use crate::search::Frame;
use m_places::Seq;
use std::alloc::{AllocError, Global};

/// The cycle that a path closes if its last cell reads this cell of the path: the cells from this
/// one on, rotated to begin with the least.
pub fn shown_cycle(alloc: Global, path: &[Frame], cell: usize) -> Result<Seq<u32>, AllocError>
    requires fits { All (λ f. f.cell < 2 ^ 32) path.now }
    requires there { is_among cell (cells_of path.now) ≡ true }
    ensures cycle { IfOk result (λ cells. (base : Base) → AreDistinctCells (cells_of path.now)
        → ReadsNext base (cells_of path.now) → LastReads base (cells_of path.now) cell → IsCycle (Reads base) cells) }
    ensures least { IfOk result (λ cells. BeginsWithLeast cells) }
{
    let ring = &path[place_of(path, cell)..];
    let least = place_of_least(ring);
    let mut cells = Vec::new(alloc);
    add_cells(&ring[least..], &mut cells)?;
    add_cells(&ring[..least], &mut cells)?;
    Ok(Seq::from_vec(cells))
}

/// The index of a cell of the path.
fn place_of(path: &[Frame], cell: usize) -> usize
    requires { is_among cell (cells_of path.now) ≡ true }
    ensures within { result < length path.now }
    ensures here { slice_index_or (cells_of path.now) result 0 ≡ cell }
{
    for (place, frame) in path.iter().enumerate() {
        if frame.cell == cell {
            return place;
        }
    }
    unreachable!()
}

/// The index of the least cell.
fn place_of_least(ring: &[Frame]) -> usize
    requires { 0 < length ring.now }
    ensures within { result < length ring.now }
    ensures least { All (λ c. slice_index_or (cells_of ring.now) result 0 ≤ c) (cells_of ring.now) }
{
    let mut least = 0;
    for place in 0..ring.len() {
        if ring[place].cell < ring[least].cell {
            least = place;
        }
    }
    least
}

fn add_cells(frames: &[Frame], cells: &mut Vec<u32>) -> Result<(), AllocError>
    requires { All (λ f. f.cell < 2 ^ 32) frames.now }
    ensures { OnOk result (cells.new.items ≡ cells.old.items ++ cells_of frames.now) }
{
    for frame in frames {
        cells.push(frame.cell as u32)?;
    }
    Ok(())
}
