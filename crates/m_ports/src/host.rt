//! Real files and streams: thin adapters over an opener, a reader and a writer.
//!
//! The contents of an opener's files may be known, and then those of `HostFiles` are; the streams'
//! contents never are. Each adapter counts a fault exactly if a call of its opener, reader or
//! writer failed, or a file's name isn't UTF-8. No contract states what a real file, pipe or
//! terminal contains or does: the calls of `edge` that reach the system are trusted. Every error of
//! the system is a fault, even one after which std's own loops would retry.
ghost use Rattle.std.specs.Prelude.{◌≡◌, ◌<◌, ◌≤◌, ◌+◌, [], ◌++◌, true, false, length, IfOk, IfSome, OnOk, OnErr, IsErrOf};
ghost use Rattle.std.specs.Str.{is_utf8};
ghost use Rattle.std.specs.Io.KnownBytes.{ReadConsumes, WriteAppends};
ghost use Rattle.m_ports.specs.Files.{attempt_of, Holds, HoldsMoreThan, IsMissing, IsRefused};
ghost use Rattle.m_ports.specs.Counts.{Rose, RoseBy, RoseByMore, RoseByMoved, faults_after, after_failure};
ghost use Rattle.m_ports.specs.Edge.{after_fetch};

use crate::counts::count_up;
use crate::edge::{Disk, Opener, Reader, Writer};
use crate::files::note;
use crate::{Attempt, Failed, FetchFault, Files, Sink, Source};
use m_places::Name;
use std::alloc::Global;
use std::rt;

/// The most bytes that are read from a file at a time.
const PIECE: usize = 8192;

/// The files that an opener opens by name. No file has a name that isn't UTF-8.
#[derive(Drop)]
pub struct HostFiles<O> {
    opener: O,
    attempts: Vec<Attempt>,
    taken: u64,
}

impl<'a, H: rt::Files> HostFiles<Disk<'a, H>> {
    /// The files that this runtime opens. Takes no memory.
    pub fn new(alloc: Global, rt: &'a H) -> HostFiles<Disk<'a, H>>
        ensures attempts { ⟦<HostFiles<Disk<'a, H>> as Files>⟧.attempts result ≡ [] }
        ensures taken { ⟦<HostFiles<Disk<'a, H>> as Files>⟧.taken result ≡ 0 }
    {
        HostFiles::over(alloc, Disk::new(rt))
    }
}

impl<O: Opener> HostFiles<O> {
    /// The files of this opener. Takes no memory.
    pub fn over(alloc: Global, opener: O) -> HostFiles<O>
        ensures opener { result.opener ≡ opener }
        ensures attempts { ⟦<HostFiles<O> as Files>⟧.attempts result ≡ [] }
        ensures taken { ⟦<HostFiles<O> as Files>⟧.taken result ≡ 0 }
    {
        HostFiles {
            opener,
            attempts: Vec::new(alloc),
            taken: 0,
        }
    }
}

/// The number of bytes to read next, if `room` more are allowed: a piece, or one byte more than
/// allowed, which detects a file that is too long.
fn next_piece(room: u64) -> usize
    ensures some { 0 < result }
    ensures within { result ≤ PIECE }
    ensures bounded { result ≤ room + 1 }
{
    if room < PIECE as u64 {
        room as usize + 1
    } else {
        PIECE
    }
}

/// Reads the open file to its end, or one byte past the limit. If its contents are known, `Ok` is
/// all of them. The error is `Failed` exactly if a call of the opener failed, and no call is made
/// after that.
pub fn read_whole<O: Opener>(
    opener: &mut O,
    alloc: Global,
    limit: u64,
    taken: &mut u64,
) -> Result<Vec<u8>, FetchFault>
    ensures whole { IfOk result (λ bytes. IfSome (O.remaining opener.old) (λ content. bytes.items ≡ content)) }
    ensures within { IfOk result (λ bytes. length bytes.items ≤ limit) }
    ensures too_long { IsErrOf result FetchFault.TooLong → IfSome (O.remaining opener.old) (λ content. limit < length content) }
    ensures failures { O.failures opener.new ≡ after_fetch result (O.failures opener.old) }
    ensures same { O.known_files opener.new ≡ O.known_files opener.old }
    ensures moved { RoseByMoved (O.remaining opener.old) (O.remaining opener.new) taken.old taken.new }
    ensures took_more { IsErrOf result FetchFault.TooLong → RoseByMore limit taken.old taken.new }
    ensures counted_whole { IfOk result (λ bytes. RoseBy (length bytes.items) taken.old taken.new) }
    ensures counted { taken.old ≤ taken.new }
    ensures bounded { taken.new ≤ taken.old + (limit + 1) }
{
    let before = *taken;
    let mut bytes = Vec::new(alloc);
    let mut piece = [0; PIECE];
    loop {
        let room = limit - bytes.len() as u64;
        let count = match opener.read_open(&mut piece[..next_piece(room)]) {
            Ok(0) => return Ok(bytes),
            Ok(count) => count,
            Err(_) => return Err(FetchFault::Failed),
        };
        *taken = before
            .saturating_add(bytes.len() as u64)
            .saturating_add(count as u64);
        if count as u64 > room {
            return Err(FetchFault::TooLong);
        }
        bytes.extend_from_slice(&piece[..count])?;
    }
}

/// Opens the file of this name, reads it and closes it. The error is `Failed` exactly if a call of
/// the opener failed or the name isn't UTF-8.
fn read_file<O: Opener>(
    opener: &mut O,
    alloc: Global,
    name: &[u8],
    limit: u64,
    taken: &mut u64,
) -> Result<Vec<u8>, FetchFault>
    ensures whole { IfOk result (λ bytes. Holds (O.known_files opener.old) name.now bytes.items) }
    ensures within { IfOk result (λ bytes. length bytes.items ≤ limit) }
    ensures missing { IsMissing (O.known_files opener.old) name.now → IsRefused result }
    ensures too_long { IsErrOf result FetchFault.TooLong → HoldsMoreThan limit (O.known_files opener.old) name.now }
    ensures failures { is_utf8 name.now ≡ true → O.failures opener.new ≡ after_fetch result (O.failures opener.old) }
    ensures not_text { is_utf8 name.now ≡ false → IsErrOf result FetchFault.Failed × (opener.new ≡ opener.old) }
    ensures same { O.known_files opener.new ≡ O.known_files opener.old }
    ensures took_more { IsErrOf result FetchFault.TooLong → RoseByMore limit taken.old taken.new }
    ensures counted_whole { IfOk result (λ bytes. RoseBy (length bytes.items) taken.old taken.new) }
    ensures counted { taken.old ≤ taken.new }
    ensures bounded { taken.new ≤ taken.old + (limit + 1) }
{
    let Ok(path) = str::from_utf8(name) else {
        return Err(FetchFault::Failed);
    };
    match opener.open(path) {
        Ok(()) => {
            let answer = read_whole(opener, alloc, limit, taken);
            opener.close();
            answer
        }
        Err(_) => Err(FetchFault::Failed),
    }
}

impl<O: Opener> Files for HostFiles<O> {
    ghost known_files = { λ s. O.known_files s.opener };

    ghost attempts = { λ s. s.attempts.items };

    ghost taken = { λ s. s.taken };

    /// Opens the file of this path and reads it to its end, or one byte past the limit. A name that
    /// isn't UTF-8 fails, and nothing is opened.
    fn fetch(&mut self, alloc: Global, name: &Name, limit: u64) -> Result<Vec<u8>, FetchFault>
        ensures attempt { self.new.attempts.items ≡ self.old.attempts.items ++ attempt_of name.now result }
        ensures whole { IfOk result (λ bytes. Holds (O.known_files self.old.opener) name.now bytes.items) }
        ensures within { IfOk result (λ bytes. length bytes.items ≤ limit) }
        ensures missing { IsMissing (O.known_files self.old.opener) name.now → IsRefused result }
        ensures too_long { IsErrOf result FetchFault.TooLong → HoldsMoreThan limit (O.known_files self.old.opener) name.now }
        ensures failures { is_utf8 name.now ≡ true → O.failures self.new.opener ≡ after_fetch result (O.failures self.old.opener) }
        ensures not_text { is_utf8 name.now ≡ false → IsRefused result × (self.new.opener ≡ self.old.opener) }
        ensures same { O.known_files self.new.opener ≡ O.known_files self.old.opener }
        ensures took_more { IsErrOf result FetchFault.TooLong → RoseByMore limit self.old.taken self.new.taken }
        ensures counted_whole { IfOk result (λ bytes. RoseBy (length bytes.items) self.old.taken self.new.taken) }
        ensures counted { self.old.taken ≤ self.new.taken }
        ensures bounded { self.new.taken ≤ self.old.taken + (limit + 1) }
    {
        let copy = name.copy(alloc)?;
        self.attempts.reserve(1)?;
        let answer = read_file(
            &mut self.opener,
            alloc,
            name.bytes(),
            limit,
            &mut self.taken,
        );
        note(&mut self.attempts, copy, &answer);
        answer
    }
}

/// An input over a reader. Its count of faults is the number of failed reads. Its own contents are
/// unknown; if the reader's are known, each call moves its next bytes.
#[derive(Drop)]
pub struct HostSource<R> {
    reader: R,
    faults: u64,
}

impl<R: Reader> HostSource<R> {
    /// The input over this reader. Takes no memory.
    pub fn new(reader: R) -> HostSource<R>
        ensures reader { result.reader ≡ reader }
        ensures faults { ⟦<HostSource<R> as Source>⟧.faults result ≡ 0 }
    {
        HostSource { reader, faults: 0 }
    }
}

impl<R: Reader> Source for HostSource<R> {
    ghost use Rattle.std.specs.Prelude.{None};

    ghost left = { λ _. None };

    ghost faults = { λ s. s.faults };

    fn take(&mut self, piece: &mut [u8]) -> Result<usize, Failed>
        requires { 0 < length piece.old }

        ensures within { IfOk result (λ n. n ≤ length piece.new) }
        ensures bytes { ReadConsumes (R.remaining self.old.reader) (R.remaining self.new.reader) result piece.new }
        ensures faults { self.new.faults ≡ faults_after result self.old.faults }
        ensures reader_failed { OnErr result (R.failures self.new.reader ≡ after_failure (R.failures self.old.reader)) }
        ensures reader_faultless { OnOk result (R.failures self.new.reader ≡ R.failures self.old.reader) }
        ensures failed { OnErr result (Rose self.old.faults self.new.faults) }
        ensures counted { self.old.faults ≤ self.new.faults }
    {
        match self.reader.read_piece(piece) {
            Ok(count) => Ok(count),
            Err(_) => {
                self.faults = count_up(self.faults);
                Err(Failed)
            }
        }
    }
}

/// An output over a writer, which should not buffer. Its count of faults is the number of writes
/// that failed, or accepted none of at least one byte. Its own contents are unknown; if the
/// writer's are known, each call appends to them.
#[derive(Drop)]
pub struct HostSink<W> {
    writer: W,
    faults: u64,
}

impl<W: Writer> HostSink<W> {
    /// The output over this writer. Takes no memory.
    pub fn new(writer: W) -> HostSink<W>
        ensures writer { result.writer ≡ writer }
        ensures faults { ⟦<HostSink<W> as Sink>⟧.faults result ≡ 0 }
    {
        HostSink { writer, faults: 0 }
    }
}

impl<W: Writer> Sink for HostSink<W> {
    ghost use Rattle.std.specs.Prelude.{None};

    ghost written = { λ _. None };

    ghost faults = { λ s. s.faults };

    fn give(&mut self, piece: &[u8]) -> Result<usize, Failed>
        ensures within { IfOk result (λ n. n ≤ length piece.now) }
        ensures some { IfOk result (λ n. 0 < length piece.now → 0 < n) }
        ensures bytes { WriteAppends (W.contents self.old.writer) (W.contents self.new.writer) result piece.now }
        ensures faults { self.new.faults ≡ faults_after result self.old.faults }
        ensures writer_failed { OnErr result (W.failures self.new.writer ≡ after_failure (W.failures self.old.writer)) }
        ensures writer_faultless { OnOk result (W.failures self.new.writer ≡ W.failures self.old.writer) }
        ensures failed { OnErr result (Rose self.old.faults self.new.faults) }
        ensures counted { self.old.faults ≤ self.new.faults }
    {
        match self.writer.write_piece(piece) {
            Ok(count) if count > 0 || piece.is_empty() => Ok(count),
            _ => {
                self.faults = count_up(self.faults);
                Err(Failed)
            }
        }
    }
}
