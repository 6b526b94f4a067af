//! Results of workers that may fail, joined.
ghost use Rattle.std.specs.Prelude.{◌≡◌, ◌<◌, IfOk};
ghost use Rattle.workers.specs.Parts.{AcceptsParts, IsJoined, MayGive, all_items, joined};

use crate::parts::map_parts;
use m_places::Gate;
use std::alloc::{AllocError, Global};
use std::thread::Threads;

/// The results of `f` on the parts of a list, appended in the order of the parts, or the error of
/// the first part that failed, whatever their order in time. Parts and the gate are as in
/// [`map_parts`]. The outer error is running out of memory.
///
/// If the second and the third part fail, the error is the second part's.
pub fn join_parts<
    R: Threads + Sync,
    G: Gate + Sync,
    T: Sync,
    U: Send + Drop,
    E: Send + Drop,
    F: Fn(usize, &[T]) -> Result<Vec<U>, E> + Sync,
>(
    rt: &R,
    alloc: Global,
    gate: &G,
    items: &[T],
    size: usize,
    f: &F,
) -> Result<Result<Vec<U>, E>, AllocError>
    requires size { 0 < size }
    requires accepts { AcceptsParts F.Fn f.now size items.now }
    ensures { IfOk result (λ all. IsJoined (MayGive F.Fn f.now) size items.now (all_items all)) }
{
    let parts = map_parts(rt, alloc, gate, items, size, f)?;
    joined(alloc, parts)
}

// The lists of the parts, appended, or the error of the first that failed.
fn joined<U: Drop, E: Drop>(
    alloc: Global,
    parts: Vec<Result<Vec<U>, E>>,
) -> Result<Result<Vec<U>, E>, AllocError>
    ensures { IfOk result (λ all. all_items all ≡ joined parts.items) }
{
    let mut all = Vec::new(alloc);
    for part in parts {
        match part {
            Ok(mut part) => all.append(&mut part)?,
            Err(fault) => return Ok(Err(fault)),
        }
    }
    Ok(Ok(all))
}
