//! Converts masks to lists.
ghost use Rattle.std.specs.Prelude.{◌≡◌, ◌<◌, ◌≤◌, ◌++◌, ℕ, [], IfOk, OnOk, length, map};
ghost use Rattle.input_reads.specs.inner.Lists.{lists_in, list_at, with_number, IsPut, AreLists};

use m_places::Seq;
use std::alloc::{AllocError, Global};

// The given number of empty lists.
fn empty_lists(alloc: Global, count: usize) -> Result<Vec<Vec<u32>>, AllocError>
    ensures many { IfOk result (λ lists. length lists.items ≡ count) }
    ensures empty { IfOk result (λ lists. (k : ℕ) → list_at (lists_in lists.items) k ≡ []) }
{
    let mut lists = Vec::with_capacity(alloc, count)?;
    for _ in 0..count {
        lists.push(Vec::new(alloc))?;
    }
    Ok(lists)
}

// Appends a number to list k, if it exists.
fn put(lists: &mut [Vec<u32>], k: usize, n: u32) -> Result<(), AllocError>
    ensures { OnOk result (lists_in lists.new ≡ with_number (lists_in lists.old) k n) }
{
    if k < lists.len() {
        lists[k].push(n)?;
    }
    Ok(())
}

// Appends a number to each list whose bit is in the mask, in one step for each bit that is 1.
fn put_by_mask(lists: &mut [Vec<u32>], mask: u64, n: u32) -> Result<(), AllocError>
    requires { length lists.old ≤ 64 }
    ensures { OnOk result (IsPut mask 0 n (lists_in lists.old) (lists_in lists.new)) }
{
    let mut rest = mask;
    while rest != 0 {
        let k = rest.trailing_zeros() as usize;
        put(lists, k, n)?;
        rest &= !(1u64 << k);
    }
    Ok(())
}

/// For each bit below the count, the numbers whose masks have it, in ascending order.
pub fn lists_of(alloc: Global, masks: &[u64], count: usize) -> Result<Vec<Vec<u32>>, AllocError>
    requires count { count ≤ 64 }
    requires few { length masks.now < 4_294_967_296 }
    ensures { IfOk result (λ lists. AreLists masks.now (length masks.now) count (lists_in lists.items)) }
{
    let mut lists = empty_lists(alloc, count)?;
    for n in 0..masks.len() {
        put_by_mask(&mut lists, masks[n], n as u32)?;
    }
    Ok(lists)
}

/// Appends lists to those of earlier groups.
pub fn add_lists(lists: Vec<Vec<u32>>, found: &mut Vec<Seq<u32>>) -> Result<(), AllocError>
    ensures { OnOk result (found.new.items ≡ found.old.items ++ lists_in lists.items) }
{
    for list in lists {
        found.push(Seq::from_vec(list))?;
    }
    Ok(())
}
