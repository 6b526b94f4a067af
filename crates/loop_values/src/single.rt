//! Indexes of one value, which together have one instance. They are bound in place, since a copy of
//! the bindings of all 256 letters would cost more.
ghost use Rattle.std.specs.Prelude.{◌≡◌, ◌≤◌, ◌∷◌, ◌++◌, [], List, All, IfOk, IfSome, OnOk, length, slice_set, take};
ghost use Rattle.m_ast.specs.declared.header.Index.{Index};
ghost use Rattle.loop_values.specs.Headers as spec;
ghost use Rattle.loop_values.specs.Values.{index_values};
ghost use Rattle.loop_values.specs.inner.Singles.{unbound};

use crate::values::{index_count, index_values};
use m_ast::Index;
use m_places::Name;
use std::alloc::{AllocError, Global};
use std::mem::replace;

/// The number of indexes at the start that have one value each. Takes no memory.
pub fn single_count(indexes: &[Index]) -> usize
    ensures within { result ≤ length indexes.now }
    ensures single { All spec.IsSingle (take result indexes.now) }
{
    let mut count = 0;
    for index in indexes {
        if index_count(index) != 1 {
            return count;
        }
        count += 1;
    }
    count
}

/// Binds the letter of each of these indexes to its only value, and returns the previous bindings
/// in the order of the indexes. The instances of any further indexes are then those of all. The
/// only error is out of memory.
pub fn bind_singles(
    alloc: Global,
    letters: &mut [Option<Name>],
    indexes: &[Index],
) -> Result<Vec<Option<Name>>, AllocError>
    requires letters { length letters.old ≡ 256 }
    requires single { All spec.IsSingle indexes.now }
    ensures letters { OnOk result (length letters.new ≡ 256) }
    ensures instances { OnOk result ((rest : List Index) → spec.instances (indexes.now ++ rest) letters.old ≡ spec.instances rest letters.new) }
    ensures as_many { IfOk result (λ outer. length outer.items ≡ length indexes.now) }
    ensures outer { IfOk result (λ outer. unbound indexes.now outer.items letters.new ≡ letters.old) }
{
    let mut outer = Vec::with_capacity(alloc, indexes.len())?;
    for index in indexes {
        let value = only_value(alloc, index)?;
        outer.push(replace(&mut letters[index.letter as usize], Some(value)))?;
    }
    Ok(outer)
}

/// Restores the previous bindings, from the last index to the first. Takes no memory.
pub fn put_back(letters: &mut [Option<Name>], indexes: &[Index], outer: Vec<Option<Name>>)
    requires letters { length letters.old ≡ 256 }
    requires as_many { length outer.items ≡ length indexes.now }
    ensures { letters.new ≡ unbound indexes.now outer.items letters.old }
{
    let mut outer = outer;
    let mut left = indexes.len();
    while left > 0 {
        left -= 1;
        match outer.pop() {
            Some(value) => put(letters, indexes[left].letter, value),
            None => unreachable!(),
        }
    }
}

fn put(letters: &mut [Option<Name>], letter: u8, value: Option<Name>)
    requires { length letters.old ≡ 256 }
    ensures { letters.new ≡ slice_set letters.old letter value }
{
    letters[letter as usize] = value;
}

/// The value of an index that has one. The only error is out of memory.
pub fn only_value(alloc: Global, index: &Index) -> Result<Name, AllocError>
    requires { spec.IsSingle index.now }
    ensures { IfOk result (λ value. index_values index.now ≡ value ∷ []) }
{
    match point(index) {
        Some(value) => value.copy(alloc),
        None => last_value(alloc, index),
    }
}

// The value of an index that is written as one point.
fn point(index: &Index) -> Option<&Name>
    ensures { IfSome result (λ value. index_values index.now ≡ value.now ∷ []) }
{
    match index.values.as_slice() {
        [span] => match &span.to {
            None => Some(&span.from),
            Some(_) => None,
        },
        _ => None,
    }
}

// The value of an index that has one, in any notation.
fn last_value(alloc: Global, index: &Index) -> Result<Name, AllocError>
    requires { spec.IsSingle index.now }
    ensures { IfOk result (λ value. index_values index.now ≡ value ∷ []) }
{
    let mut values = index_values(alloc, index)?;
    match values.pop() {
        Some(value) => Ok(value),
        None => unreachable!(),
    }
}
