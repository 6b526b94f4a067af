//! Sets of numbers.
ghost use Rattle.std.specs.Prelude.{◌≡◌, ◌<◌, IfOk, length};

use dirty_set::Bits;
use std::alloc::{AllocError, Global};
use std::test::Fail;

// The empty set of numbers below `count`.
fn empty(alloc: Global, count: u32) -> Result<Bits, AllocError>
    ensures { IfOk result (λ set. length set ≡ count) }
{
    let set = Bits::new(alloc, count)?;
    Ok(set)
}

// Adds a number to the set.
fn add(set: &mut Bits, k: u32)
    requires { k < length set.old }
    ensures { length set.new ≡ length set.old }
{
    set.insert(k);
}

// Whether no member is between 70 and 99,999,999. This is called 100,000 times, which is quick only if the numbers
// between aren't visited.
fn is_far(set: &Bits) -> bool {
    for _ in 0..100_000u32 {
        if set.next_from(71) != Some(99_999_999) {
            return false;
        }
    }
    true
}

// Whether a set that was empty has the members added, without those removed.
fn has_members(set: &mut Bits) -> bool
    requires { length set.old ≡ 100_000_000 }
{
    let none = set.first().is_none();
    add(set, 99_999_999);
    add(set, 70);
    add(set, 3);
    let three = set.first() == Some(3) && set.next_after(3) == Some(70) && is_far(set);
    let last = set.next_after(99_999_999).is_none() && set.next_from(100_000_000).is_none();
    set.remove(70);
    let two = set.next_from(4) == Some(99_999_999);
    set.clear();
    none && three && last && two && set.first().is_none()
}

#[test]
fn members(rt: HostRuntime) -> Result<(), Fail> {
    let mut set = empty(rt.alloc(), 100_000_000)?;
    assert!(rt; has_members(&mut set));
    Ok(())
}
