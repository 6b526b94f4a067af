//! The hasher of names.
ghost use Rattle.std.specs.Prelude.{◌≡◌};
ghost use Rattle.m_names.specs.Hashes.{started, with_byte, written, finished};

use std::hash::{DefaultHasher, Hasher};

// The least word that is full: a 1 and seven bytes.
const FULL: u64 = 72_057_594_037_927_936;

/// SipHash of a list of bytes, seven bytes a word.
///
/// A list of bytes is hashed byte by byte, and `DefaultHasher` takes some 40 instructions for a
/// write of one byte. Here a byte is added to a word, and each full word is one write.
#[derive(Clone, Copy)]
pub struct NameHasher {
    sip: DefaultHasher,
    // A 1, and then the bytes since the last full word, the last of them lowest.
    word: u64,
}

impl NameHasher {
    /// The hasher that continues from this state.
    pub(crate) fn after(sip: DefaultHasher) -> NameHasher
        ensures { result ≡ started sip }
    {
        NameHasher { sip, word: 1 }
    }

    // Adds a byte to the word.
    fn push(&mut self, byte: u8)
        ensures { self.new ≡ with_byte self.old byte }
    {
        let word = self.word << 8 | byte as u64;
        if word < FULL {
            self.word = word;
        } else {
            self.sip.write_u64(word);
            self.word = 1;
        }
    }
}

impl Hasher for NameHasher {
    ghost write = { written };

    ghost finish = { finished };

    // The length that goes before a list isn't hashed: the 1 of the last word says where a list ends.
    fn write(&mut self, bytes: &[u8]) {
        if bytes.len() == 1 {
            self.push(bytes[0]);
        }
    }

    fn write_u8(&mut self, byte: u8) {
        self.push(byte);
    }

    fn finish(&self) -> u64 {
        let mut sip = self.sip;
        sip.write_u64(self.word);
        sip.finish()
    }
}
