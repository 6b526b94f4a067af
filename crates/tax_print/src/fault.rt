//! Errors that are reported in place of an answer.
use m_places::{Name, Place};

/// An error that is reported on a line in place of an answer, by the form of its line. The words,
/// which the crate that finds the error gives, and names are borrowed, so reporting takes no
/// memory. An input is named by a word: `household`. Lines count from 1, bytes from 0.
#[derive(Clone, Copy)]
pub enum Fault<'a> {
    /// Words alone: `refused too many files`.
    Words(&'a [u8]),
    /// Words, and the name that they concern: `refused file too long a.m`.
    OfName(&'a [u8], &'a [u8]),
    /// Words, and names, each after a space: `refused cycle IRN TOT`.
    OfNames(&'a [u8], &'a [Name]),
    /// Words and a number: `refused list line 2`.
    OfNumber(&'a [u8], u64),
    /// An input, and the words of its error: `refused household: bad header`.
    InInput(&'a [u8], &'a [u8]),
    /// An input, the number of its line, and the words of the error there:
    /// `refused household line 2: bad amount`.
    AtLine(&'a [u8], u32, &'a [u8]),
    /// The same, and the name that the words concern: `refused driver line 3: unknown REVC`.
    AtLineName(&'a [u8], u32, &'a [u8], &'a [u8]),
    /// The name of a rule file, a place in it, and the words of the error there:
    /// `refused a.m line 1 byte 43: open string`.
    AtPlace(&'a [u8], Place, &'a [u8]),
    /// The same, and the name that the words concern:
    /// `refused b.m line 5 byte 154: unknown name REVC`.
    AtPlaceName(&'a [u8], Place, &'a [u8], &'a [u8]),
}
