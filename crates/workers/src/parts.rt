//! Parts of one size, each given to a worker. The parallel iterator runs over the numbers of the
//! parts with `with_min_len(1)`: rayon runs a chain of fewer than 2,048 items on one thread
//! otherwise.
ghost use Rattle.std.specs.Prelude.{◌*◌, ◌<◌, ◌≤◌, ℕ, length, IfOk};
ghost use Rattle.workers.specs.Parts.{AcceptsParts, IsPart, MadeOfParts, MayGive, part_at};

use m_places::Gate;
use rayon::prelude::*;
use std::alloc::{AllocError, Global};
use std::thread;
use std::thread::Threads;

/// The size of a part, if `items` items are cut into `each` parts per processor, and at least two
/// parts. The last part may be smaller.
///
/// On four processors 1,000 items are 4 parts of 250, or with four per processor 16 of 63.
pub fn part_size<R: Threads>(rt: &R, items: usize, each: usize) -> usize
    ensures { 0 < result }
{
    let processors = match thread::available_parallelism(rt) {
        Ok(count) => count.get(),
        Err(_) => 1,
    };
    size_of(items, processors.saturating_mul(each).max(2))
}

fn size_of(items: usize, parts: usize) -> usize
    requires { 0 < parts }
    ensures { 0 < result }
{
    items.div_ceil(parts).max(1)
}

/// The results of `f` on the parts of a list, in the order of the parts, whatever their order in
/// time. A part has `size` items, and the last one perhaps fewer; `f` gets the position of its
/// first item, from 0, and the part. The worker of a part first calls `gate.pass(k)` for the
/// position k of each of its items. Parts run in parallel, each on one worker. The only error is
/// running out of memory.
///
/// A list of five items has for the size 2 parts of two items, two items and one, at the positions
/// 0, 2 and 4.
pub fn map_parts<
    R: Threads + Sync,
    G: Gate + Sync,
    T: Sync,
    U: Send + Drop,
    F: Fn(usize, &[T]) -> U + Sync,
>(rt: &R, alloc: Global, gate: &G, items: &[T], size: usize, f: &F) -> Result<Vec<U>, AllocError>
    requires size { 0 < size }
    requires accepts { AcceptsParts F.Fn f.now size items.now }
    ensures { IfOk result (λ made. MadeOfParts (MayGive F.Fn f.now) size items.now made.items) }
{
    (0..part_count(items.len(), size))
        .into_par_iter()
        .with_min_len(1)
        .map(
            move |n: usize| -> U
                requires { (0 < size) × (n * size < length items.now) × AcceptsParts F.Fn f.now size items.now }
                ensures { MayGive F.Fn f.entry.now (n * size) (part_at items.entry.now size (n * size)) result }
            {
                let part = part_at(items, size, n);
                pass(gate, n * size, part.len());
                f(n * size, part)
            },
        )
        .collect(rt, alloc)
}

// The number of parts of this size.
fn part_count(items: usize, size: usize) -> usize
    requires { 0 < size }
    ensures reach { items ≤ result * size }
    ensures inside { (n : ℕ) → n < result → n * size < items }
{
    items.div_ceil(size)
}

/// The part with this number, from 0: `size` items, or fewer at the end of the list.
pub fn part_at<T>(items: &[T], size: usize, n: usize) -> &[T]
    requires size { 0 < size }
    requires inside { n * size < length items.now }
    ensures { IsPart items.now size (n * size) result.now }
{
    let (_, rest) = items.split_at(n * size);
    let (part, _) = rest.split_at(size.min(rest.len()));
    part
}

// Passes the gate for each item of a part; `start` is the position of the first.
fn pass<G: Gate>(gate: &G, start: usize, count: usize) {
    for n in 0..count {
        gate.pass(u32::try_from(start.saturating_add(n)).unwrap_or(u32::MAX));
    }
}
