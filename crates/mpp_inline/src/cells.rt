//! Reads and writes of an environment, which has for each cell the number of the node with its
//! value.

ghost use Rattle.std.specs.Prelude.{◌≡◌, IfOk, slice_set, slice_index_or};
ghost use Rattle.mpp_inline.specs.inner.Cells.{picked, written, blanked};

use crate::builder::UNDEF;
use std::alloc::{AllocError, Global};

/// The node of a cell; undefined if the cell doesn't exist.
pub fn look(env: &[u32], cell: usize) -> u32
    ensures { result ≡ slice_index_or env.now cell 0 }
{
    match env.get(cell) {
        Some(number) => *number,
        None => UNDEF,
    }
}

/// Sets the node of a cell; nothing if the cell doesn't exist.
pub fn put(env: &mut [u32], cell: u32, number: u32)
    ensures { env.new ≡ slice_set env.old cell number }
{
    if (cell as usize) < env.len() {
        env[cell as usize] = number;
    }
}

/// These cells with their nodes.
pub fn pick_cells(alloc: Global, env: &[u32], cells: &[u32]) -> Result<Vec<(u32, u32)>, AllocError>
    ensures { IfOk result (λ entries. entries.items ≡ picked 0 cells.now env.now) }
{
    let mut entries = Vec::new(alloc);
    for cell in cells {
        entries.push((*cell, look(env, *cell as usize)))?;
    }
    Ok(entries)
}

/// Writes these nodes at their cells.
pub fn write(env: &mut [u32], entries: &[(u32, u32)])
    ensures { env.new ≡ written entries.now env.old }
{
    for (cell, number) in entries {
        put(env, *cell, *number);
    }
}

/// Makes these cells undefined.
pub fn blank(env: &mut [u32], cells: &[u32])
    ensures { env.new ≡ blanked 0 cells.now env.old }
{
    for cell in cells {
        put(env, *cell, UNDEF);
    }
}
