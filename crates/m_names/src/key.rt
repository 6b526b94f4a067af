//! The hash key of names.

use crate::hasher::NameHasher;
use m_places::Name;
use sha2::{Digest, Sha512};
use std::hash::{BuildHasher, DefaultHasher, Hasher};

/// A key for hashing names: every hash starts from this state of the hasher.
#[derive(Clone, Copy)]
pub struct Key {
    start: NameHasher,
}

// A name of fewer bytes has its length in one byte.
const LONG: usize = 255;

/// The digest from which a key is made: SHA-512 of the names and their lengths. (It takes half of
/// the time a byte that SHA-256 takes.)
///
/// A key that depends on all names is known only after they are chosen, so names can't be chosen to
/// collide under it.
#[derive(Drop)]
pub struct NamesDigest {
    digest: Sha512,
}

impl NamesDigest {
    /// The digest of no names.
    pub fn new() -> NamesDigest {
        NamesDigest {
            digest: Sha512::new(),
        }
    }

    /// Adds a name to the digest.
    pub fn take(&mut self, name: &[u8]) {
        if name.len() < LONG {
            self.digest.update(&[name.len() as u8]);
        } else {
            self.digest.update(&[LONG as u8]);
            self.digest.update(&name.len().to_le_bytes());
        }
        self.digest.update(name);
    }

    /// The key of the names added so far.
    pub fn key(self) -> Key {
        let NamesDigest { digest } = self;
        let mut start = DefaultHasher::new();
        start.write(&digest.finalize());
        Key {
            start: NameHasher::after(start),
        }
    }
}

impl Key {
    /// The key of these names.
    pub(crate) fn of(names: &[Name]) -> Key {
        let mut digest = NamesDigest::new();
        for name in names {
            digest.take(name.bytes());
        }
        digest.key()
    }
}

impl BuildHasher for Key {
    type Hasher = NameHasher;

    ghost build_hasher = { λ key. key.start };

    fn build_hasher(&self) -> NameHasher {
        self.start
    }
}
