//! Files that are fetched whole by name.
//!
//! A fetch has a limit and is recorded as an attempt, so a caller's contract can state which names
//! were fetched and which fetches failed, even if the files' contents aren't known.
ghost use Rattle.std.specs.Prelude.{◌≡◌, ℕ, ◌+◌, ◌<◌, ◌≤◌, List, ◌++◌, Option, length, IfOk, IsErrOf, vec_len, vec_capacity};
ghost use Rattle.m_ports.specs.declared.files.Attempt.{Attempt};
ghost use Rattle.m_ports.specs.declared.files.FetchFault.TheVariants.{Memory};
ghost use Rattle.m_ports.specs.Counts.{RoseBy, RoseByMore};
ghost use Rattle.m_ports.specs.Files.{attempt_of, Holds, HoldsMoreThan, IsMissing, IsRefused};

use m_places::Name;
use std::alloc::{AllocError, AllocFailed, Global};

/// Why a file was not fetched.
#[derive(Clone, Copy, Debug, PartialEq, Eq)]
pub enum FetchFault {
    /// It couldn't be opened or read, or doesn't exist.
    Failed,
    /// It has more bytes than the limit.
    TooLong,
    /// Out of memory.
    Memory,
}

impl From<AllocError> for FetchFault {
    ghost from_gives = { λ _ e. e ≡ Memory };

    fn from(_: AllocError) -> Self {
        FetchFault::Memory
    }
}

impl<T: Drop> From<AllocFailed<T>> for FetchFault {
    ghost from_gives = { λ _ e. e ≡ Memory };

    fn from(_: AllocFailed<T>) -> Self {
        FetchFault::Memory
    }
}

/// A fetch: the requested name, and whether opening or reading the file failed.
#[derive(Drop)]
pub struct Attempt {
    pub name: Name,
    pub failed: bool,
}

/// Files that are fetched by name.
pub trait Files {
    /// The files' contents by name, if they are known; none for a missing name.
    ghost known_files: { Self → Option (List ℕ → Option (List ℕ)) };

    /// The fetches so far, in order. The count of faults is the number of failed ones.
    ghost attempts: { Self → List Attempt };

    /// The number of bytes taken from files so far, saturating.
    ghost taken: { Self → ℕ };

    /// All bytes of the file of this name, if it has at most `limit`.
    fn fetch(&mut self, alloc: Global, name: &Name, limit: u64) -> Result<Vec<u8>, FetchFault>
        // Each fetch is one attempt, which failed exactly if the result is `Failed`. A fetch that
        // ran out of memory is none.
        ensures attempt { attempts self.new ≡ attempts self.old ++ attempt_of name.now result }

        ensures whole { IfOk result (λ bytes. Holds (known_files self.old) name.now bytes.items) }
        ensures within { IfOk result (λ bytes. length bytes.items ≤ limit) }

        ensures missing { IsMissing (known_files self.old) name.now → IsRefused result }
        ensures too_long { IsErrOf result FetchFault.TooLong → HoldsMoreThan limit (known_files self.old) name.now }
        ensures took_more { IsErrOf result FetchFault.TooLong → RoseByMore limit (taken self.old) (taken self.new) }

        ensures same { known_files self.new ≡ known_files self.old }

        // The returned bytes were taken: the count rose by at least the file's length.
        ensures counted_whole { IfOk result (λ bytes. RoseBy (length bytes.items) (taken self.old) (taken self.new)) }

        // Whatever the result, at most one byte past the limit is taken.
        ensures counted { taken self.old ≤ taken self.new }
        ensures bounded { taken self.new ≤ taken self.old + (limit + 1) };
}

/// Records the attempt of a fetch with this result. The caller reserves space before the fetch, so
/// this takes no memory, and the result of a completed fetch isn't lost.
pub fn note(attempts: &mut Vec<Attempt>, name: Name, answer: &Result<Vec<u8>, FetchFault>)
    requires { vec_len attempts.old < vec_capacity attempts.old }
    ensures { attempts.new.items ≡ attempts.old.items ++ attempt_of name answer.now }
{
    let failed = match answer {
        Ok(_) => false,
        Err(FetchFault::TooLong) => false,
        Err(FetchFault::Failed) => true,
        Err(FetchFault::Memory) => return,
    };
    match attempts.push(Attempt { name, failed }) {
        Ok(()) => {}
        Err(_) => unreachable!(),
    }
}
