//! The second field of a record: whether an input has an amount.
ghost use Rattle.std.specs.Prelude.{◌≡◌};
ghost use Rattle.input_ranges.specs.Ranges.{given_of};

/// Whether an input has an amount.
#[derive(Clone, Copy, Debug, PartialEq, Eq)]
pub enum Given {
    /// It has an amount.
    Yes,
    /// It is undefined.
    No,
    /// It has an amount or is undefined.
    Maybe,
}

/// Parses `yes`, `no` or `maybe`. Takes no memory.
pub(crate) fn given_of(word: &[u8]) -> Option<Given>
    ensures { result ≡ given_of word.now }
{
    if word == b"yes".as_slice() {
        Some(Given::Yes)
    } else if word == b"no".as_slice() {
        Some(Given::No)
    } else if word == b"maybe".as_slice() {
        Some(Given::Maybe)
    } else {
        None
    }
}
