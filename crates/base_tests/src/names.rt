//! Names that are added twice and found, and lists of names.
use m_names::{Names, NamesFault, has_name};
use m_places::Name;
use std::alloc::Global;

/// Whether a name is added, as a new one if `fresh`, else as one that was there.
fn is_added(alloc: Global, names: &mut Names, name: &[u8], fresh: bool) -> bool {
    match names.add(alloc, name) {
        Ok(added) => added == fresh,
        Err(_) => false,
    }
}

fn are_added(alloc: Global, names: &mut Names) -> bool {
    is_added(alloc, names, b"REV", true)
        && is_added(alloc, names, b"SEUIL", true)
        && is_added(alloc, names, b"REV", false)
        && is_added(alloc, names, b"", true)
}

fn are_found(names: &Names) -> bool {
    names.len() == 3
        && names.find(b"REV") == Some(0)
        && names.find(b"SEUIL") == Some(1)
        && names.find(b"") == Some(2)
        && names.find(b"RE").is_none()
}

#[test]
fn finds_names_by_their_bytes(rt: HostRuntime) {
    let mut names = Names::new(rt.alloc());
    assert!(rt; are_added(rt.alloc(), &mut names));
    assert!(rt; are_found(&names));
}

/// Adds a name. If memory runs out it is missing.
fn add(alloc: Global, names: &mut Vec<Name>, name: &[u8]) {
    if let Ok(name) = Name::new(alloc, name) {
        let _added = names.push(name);
    }
}

/// Whether a list of three names, of which the last is this one, has this fault or none, and contains its second name.
fn is_list(alloc: Global, last: &[u8], wanted: Option<NamesFault>) -> bool {
    let mut names = Vec::new(alloc);
    add(alloc, &mut names, b"REV");
    add(alloc, &mut names, b"SEUIL");
    add(alloc, &mut names, last);
    let is_among = has_name(&names, b"SEUIL") && !has_name(&names, b"SEUI");
    is_among && Names::of(alloc, &names).err() == wanted
}

#[test]
fn finds_the_first_repeated_name(rt: HostRuntime) {
    assert!(rt; is_list(rt.alloc(), b"SEUIL", Some(NamesFault::Repeated(1, 2))));
    assert!(rt; is_list(rt.alloc(), b"REVENU", None));
}
