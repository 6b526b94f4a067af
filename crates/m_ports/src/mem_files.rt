//! Files in memory, for tests: their contents are known, and chosen fetches fail.
ghost use Rattle.std.specs.Prelude.{◌≡◌, ◌+◌, ◌≤◌, ◌++◌, [], length, min, option_map};
ghost use Rattle.m_ports.specs.Counts.{last_count};
ghost use Rattle.m_ports.specs.Files.{attempt_of};
ghost use Rattle.m_ports.specs.MemFiles.{content_of, Answers, bytes_taken};

use crate::counts::is_failing;
use crate::files::note;
use crate::{Attempt, FetchFault, Files};
use m_places::Name;
use std::alloc::Global;

/// Files in memory. Of several with one name the first counts.
#[derive(Drop)]
pub struct MemFiles {
    /// The files: names and contents.
    pub files: Vec<(Name, Vec<u8>)>,
    /// The numbers of the fetches that fail, from 1.
    pub failing: Vec<u64>,
    attempts: Vec<Attempt>,
    taken: u64,
}

impl MemFiles {
    /// These files. The fetches whose numbers, from 1, are in `failing` fail, and so do those of
    /// missing names; a fetch that runs out of memory isn't numbered. Takes no memory.
    pub fn new(alloc: Global, files: Vec<(Name, Vec<u8>)>, failing: Vec<u64>) -> MemFiles
        ensures files { result.files ≡ files }
        ensures failing { result.failing ≡ failing }
        ensures attempts { ⟦<MemFiles as Files>⟧.attempts result ≡ [] }
        ensures taken { ⟦<MemFiles as Files>⟧.taken result ≡ 0 }
    {
        MemFiles {
            files,
            failing,
            attempts: Vec::new(alloc),
            taken: 0,
        }
    }

    /// The fetches so far, in order.
    pub fn attempted(&self) -> &[Attempt]
        ensures { result.now ≡ ⟦<MemFiles as Files>⟧.attempts self.now }
    {
        self.attempts.as_slice()
    }
}

/// The bytes of the first file of this name.
fn find<'a>(files: &'a [(Name, Vec<u8>)], name: &[u8]) -> Option<&'a [u8]>
    ensures { option_map (λ bytes. bytes.now) result ≡ content_of files.now name.now }
{
    files
        .iter()
        .find(|(file, _)| file.bytes() == name)
        .map(|(_, bytes)| bytes.as_slice())
}

/// The number of bytes that a fetch with this result took, saturating.
fn taken_by(answer: &Result<Vec<u8>, FetchFault>, limit: u64) -> u64
    ensures { result ≡ min (bytes_taken answer.now limit) last_count }
{
    match answer {
        Ok(bytes) => bytes.len() as u64,
        Err(FetchFault::TooLong) => limit.saturating_add(1),
        Err(_) => 0,
    }
}

impl MemFiles {
    ghost use Rattle.m_ports.specs.Counts.{is_failing};
    ghost use Rattle.m_ports.specs.MemFiles.{fetched};

    fn answer(&self, alloc: Global, name: &[u8], limit: u64) -> Result<Vec<u8>, FetchFault>
        ensures { Answers result (fetched (is_failing self.now.failing.items (length self.now.attempts.items))
            (content_of self.now.files.items name.now) limit) }
    {
        if is_failing(&self.failing, self.attempts.len() as u64) {
            return Err(FetchFault::Failed);
        }
        match find(&self.files, name) {
            None => Err(FetchFault::Failed),
            Some(bytes) if bytes.len() as u64 > limit => Err(FetchFault::TooLong),
            Some(bytes) => Ok(Vec::from_slice(alloc, bytes)?),
        }
    }
}

impl Files for MemFiles {
    ghost use Rattle.std.specs.Prelude.{Some};
    ghost use Rattle.m_ports.specs.Counts.{is_failing};
    ghost use Rattle.m_ports.specs.MemFiles.{fetched};

    ghost known_files = { λ s. Some (content_of s.files.items) };

    ghost attempts = { λ s. s.attempts.items };

    ghost taken = { λ s. s.taken };

    /// Fails exactly if the number of the fetch is listed or the name is missing.
    fn fetch(&mut self, alloc: Global, name: &Name, limit: u64) -> Result<Vec<u8>, FetchFault>
        ensures answer { Answers result (fetched (is_failing self.old.failing.items (length self.old.attempts.items))
            (content_of self.old.files.items name.now) limit) }
        ensures attempt { self.new.attempts.items ≡ self.old.attempts.items ++ attempt_of name.now result }
        ensures taken { self.new.taken ≡ min (self.old.taken + bytes_taken result limit) last_count }
        ensures counted { self.old.taken ≤ self.new.taken }
        ensures files { self.new.files ≡ self.old.files }
        ensures failing { self.new.failing ≡ self.old.failing }
    {
        let taken = self.taken;
        let copy = name.copy(alloc)?;
        self.attempts.reserve(1)?;
        let answer = self.answer(alloc, name.bytes(), limit);
        note(&mut self.attempts, copy, &answer);
        self.taken = taken.saturating_add(taken_by(&answer, limit));
        answer
    }
}
