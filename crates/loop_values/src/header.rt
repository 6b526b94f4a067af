//! Headers: the number of their instances, and their faulty indexes.
ghost use Rattle.std.specs.Prelude.{◌≡◌, ℕ, ◌*◌, ◌<◌, ◌≤◌, ◌∷◌, ◌++◌, ◌||◌, List, false, IfOk, OnOk, min, slice_index_or};
ghost use Rattle.loop_values.specs.declared.values.TheConstants.{MANY};
ghost use Rattle.loop_values.specs.Headers as spec;
ghost use Rattle.loop_values.specs.Letters.{Letters};
ghost use Rattle.loop_values.specs.inner.Kept.{AreKept};
ghost use Rattle.m_ast.specs.declared.header.Index.{Index};

use crate::values::{MANY, index_count};
use m_ast::{Header, Index};
use std::alloc::{AllocError, Global};

/// `before` times the number of instances of the indexes, or `MANY` if it is more.
pub fn instance_count(before: u64, indexes: &[Index]) -> u64
    requires { before ≤ MANY }
    ensures count { result ≡ min (before * spec.instance_count indexes.now) MANY }
{
    let mut count = before;
    for index in indexes {
        count = (count * index_count(index)).min(MANY);
    }
    count
}

/// The number of instances of all headers of a formula together, or `MANY` if it is more.
pub fn headers_count(headers: &[Header]) -> u64
    ensures { result ≡ min (spec.instance_count (spec.all_indexes headers.now)) MANY }
{
    let mut count = 1;
    for header in headers {
        count = instance_count(count, header.indexes.as_slice());
    }
    count
}

/// For each byte whether two or more of the indexes have it as their letter.
pub fn repeated_letters(indexes: &[Index]) -> [bool; 256]
    ensures { (letter : ℕ) → letter < 256 → slice_index_or result letter false ≡ spec.is_twice letter indexes.now }
{
    let mut once = [false; 256];
    let mut twice = [false; 256];
    for index in indexes {
        let letter = index.letter as usize;
        twice[letter] = either(twice[letter], once[letter]);
        once[letter] = true;
    }
    twice
}

fn either(a: bool, b: bool) -> bool
    ensures { result ≡ (a || b) }
{
    a || b
}

/// Indexes with the same instances as all indexes of the headers, from the outermost to the
/// innermost. An index of one value is omitted if an inner index binds its letter again, so few
/// instances need few indexes: 200,000 times `pour i=1:` is one index. The only error is out of
/// memory.
pub fn kept_indexes(alloc: Global, headers: &[Header]) -> Result<Vec<Index>, AllocError>
    ensures { IfOk result (λ kept. (letters : Letters)
        → spec.instances kept.items letters ≡ spec.instances (spec.all_indexes headers.now) letters) }
{
    let mut kept = Vec::new(alloc);
    let mut bound = [false; 256];
    let mut left = headers.len();
    while left > 0 {
        left -= 1;
        keep_all(
            alloc,
            &mut kept,
            &mut bound,
            headers[left].indexes.as_slice(),
        )?;
    }
    Ok(kept)
}

/// `kept_indexes` of two headers, of which the second is the inner one.
pub fn joined_indexes(
    alloc: Global,
    outer: &[Index],
    inner: &[Index],
) -> Result<Vec<Index>, AllocError>
    ensures { IfOk result (λ kept. (letters : Letters)
        → spec.instances kept.items letters ≡ spec.instances (outer.now ++ inner.now) letters) }
{
    let mut kept = Vec::new(alloc);
    let mut bound = [false; 256];
    keep_all(alloc, &mut kept, &mut bound, inner)?;
    keep_all(alloc, &mut kept, &mut bound, outer)?;
    Ok(kept)
}

// Inserts the indexes that are kept of these before `kept`, which holds those of all inner ones.
// `bound` marks the letters that `kept` binds.
fn keep_all(
    alloc: Global,
    kept: &mut Vec<Index>,
    bound: &mut [bool; 256],
    indexes: &[Index],
) -> Result<(), AllocError>
    ensures { OnOk result ((all : List Index) → AreKept kept.old.items bound.old all → AreKept kept.new.items bound.new (indexes.now ++ all)) }
{
    let mut left = indexes.len();
    while left > 0 {
        left -= 1;
        keep(alloc, kept, bound, &indexes[left])?;
    }
    Ok(())
}

fn keep(
    alloc: Global,
    kept: &mut Vec<Index>,
    bound: &mut [bool; 256],
    index: &Index,
) -> Result<(), AllocError>
    ensures { OnOk result ((all : List Index) → AreKept kept.old.items bound.old all → AreKept kept.new.items bound.new (index.now ∷ all)) }
{
    if bound[index.letter as usize] && index_count(index) == 1 {
        return Ok(());
    }
    let copy = index.copy(alloc)?;
    kept.insert(0, copy)?;
    bound[index.letter as usize] = true;
    Ok(())
}
