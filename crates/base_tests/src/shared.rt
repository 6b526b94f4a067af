//! Names with several owners, and copies of names.
use m_places::{Name, SharedName};
use std::alloc::Global;
use std::test::Fail;

/// Whether a name outlives the owner that it is shared from.
fn outlives(alloc: Global, first: SharedName) -> bool {
    match first.share(alloc) {
        Ok(second) => {
            drop(first);
            second.bytes() == b"A20".as_slice()
        }
        Err(_) => false,
    }
}

#[test]
fn outlive_their_first_owner(rt: HostRuntime) -> Result<(), Fail> {
    let name = Name::new(rt.alloc(), b"A20")?;
    let first = SharedName::new(rt.alloc(), name)?;
    assert!(rt; outlives(rt.alloc(), first));
    Ok(())
}

/// Whether a copy outlives the name that it is made from.
fn copy_outlives(alloc: Global, first: Name, bytes: &[u8]) -> bool {
    match first.copy(alloc) {
        Ok(second) => {
            drop(first);
            second.bytes() == bytes
        }
        Err(_) => false,
    }
}

// The copies of a name of 17 bytes share them; 16 are kept in the value.
#[test]
fn copies_outlive_their_names(rt: HostRuntime) -> Result<(), Fail> {
    let short = b"ABCDEFGHIJKLMNOP".as_slice();
    let long = b"ABCDEFGHIJKLMNOPQ".as_slice();
    let first = Name::new(rt.alloc(), short)?;
    assert!(rt; copy_outlives(rt.alloc(), first, short));
    let first = Name::new(rt.alloc(), long)?;
    assert!(rt; copy_outlives(rt.alloc(), first, long));
    Ok(())
}
