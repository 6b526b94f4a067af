//! The edge between the adapters and the system: an opener, a reader and a writer, whose contents
//! and counts of failures may be known. Those of the system have neither, so what is proved of an
//! adapter holds for all. The calls here that reach the system are trusted; each is one line.
ghost use Rattle.std.specs.Prelude.{◌≡◌, ℕ, ◌<◌, List, Option, length, IfOk, OnOk, OnErr};
ghost use Rattle.std.specs.Io.{ReadsAtMost, WritesAtMost};
ghost use Rattle.std.specs.Io.KnownBytes.{ReadConsumes, WriteAppends};
ghost use Rattle.m_ports.specs.Counts.{after_failure};
ghost use Rattle.m_ports.specs.Edge.{Opens};

use std::fs::File;
use std::io::{self, Read, Write};
use std::rt;

/// A reader. Each `Read` is one, with unknown contents.
pub trait Reader {
    /// The bytes that are left, if they are known.
    ghost remaining: { Self → Option (List ℕ) };

    /// The number of calls that returned an error, if it is counted.
    ghost failures: { Self → Option ℕ };

    /// As `Read::read`.
    fn read_piece(&mut self, piece: &mut [u8]) -> io::Result<usize>
        ensures bound { ReadsAtMost result piece.new }
        ensures bytes { ReadConsumes (remaining self.old) (remaining self.new) result piece.new }
        ensures failed { OnErr result (failures self.new ≡ after_failure (failures self.old)) }
        ensures faultless { OnOk result (failures self.new ≡ failures self.old) };
}

impl<R: Read> Reader for R {
    ghost use Rattle.std.specs.Prelude.{None};

    ghost remaining = { R.remaining };

    ghost failures = { λ _. None };

    fn read_piece(&mut self, piece: &mut [u8]) -> io::Result<usize> {
        self.read(piece)
    }
}

/// A writer. Each `Write` is one, with unknown contents.
pub trait Writer {
    /// The bytes that it contains, if they are known.
    ghost contents: { Self → Option (List ℕ) };

    /// The number of calls that returned an error, or accepted none of at least one byte, if it is
    /// counted.
    ghost failures: { Self → Option ℕ };

    /// As `Write::write`.
    fn write_piece(&mut self, piece: &[u8]) -> io::Result<usize>
        ensures bound { WritesAtMost result piece.now }
        ensures bytes { WriteAppends (contents self.old) (contents self.new) result piece.now }
        ensures failed { OnErr result (failures self.new ≡ after_failure (failures self.old)) }
        ensures took_nothing { IfOk result (λ n. n ≡ 0 → 0 < length piece.now → failures self.new ≡ after_failure (failures self.old)) }
        ensures took { IfOk result (λ n. 0 < n → failures self.new ≡ failures self.old) }
        ensures empty { length piece.now ≡ 0 → OnOk result (failures self.new ≡ failures self.old) };
}

impl<W: Write> Writer for W {
    ghost use Rattle.std.specs.Prelude.{None};

    ghost contents = { W.contents };

    ghost failures = { λ _. None };

    fn write_piece(&mut self, piece: &[u8]) -> io::Result<usize> {
        self.write(piece)
    }
}

/// Opens files by their paths, one at a time, and reads the open one.
pub trait Opener {
    /// The files' contents by path, if they are known; none for a missing path.
    ghost known_files: { Self → Option (List ℕ → Option (List ℕ)) };

    /// The bytes that are left of the open file, if they are known.
    ghost remaining: { Self → Option (List ℕ) };

    /// The number of calls that returned an error, if it is counted.
    ghost failures: { Self → Option ℕ };

    /// Opens the file of this path in place of the one that was open.
    fn open(&mut self, path: &str) -> io::Result<()>
        ensures opened { OnOk result (Opens (known_files self.old) path.now (remaining self.new)) }
        ensures failed { OnErr result (failures self.new ≡ after_failure (failures self.old)) }
        ensures faultless { OnOk result (failures self.new ≡ failures self.old) }
        ensures same { known_files self.new ≡ known_files self.old };

    /// Reads from the open file, as `Read::read`.
    fn read_open(&mut self, piece: &mut [u8]) -> io::Result<usize>
        ensures bound { ReadsAtMost result piece.new }
        ensures bytes { ReadConsumes (remaining self.old) (remaining self.new) result piece.new }
        ensures failed { OnErr result (failures self.new ≡ after_failure (failures self.old)) }
        ensures faultless { OnOk result (failures self.new ≡ failures self.old) }
        ensures same { known_files self.new ≡ known_files self.old };

    /// Closes the open file.
    fn close(&mut self)
        ensures faultless { failures self.new ≡ failures self.old }
        ensures same { known_files self.new ≡ known_files self.old };
}

/// The files of the system, by their paths. Their contents aren't known, and failures aren't
/// counted.
#[derive(Drop)]
pub struct Disk<'a, H: rt::Files> {
    rt: &'a H,
    file: Option<H::File>,
}

impl<'a, H: rt::Files> Disk<'a, H> {
    /// The files that this runtime opens.
    pub fn new(rt: &'a H) -> Disk<'a, H> {
        Disk { rt, file: None }
    }
}

impl<'a, H: rt::Files> Opener for Disk<'a, H> {
    ghost use Rattle.std.specs.Prelude.{None};

    ghost known_files = { λ _. None };

    ghost remaining = { λ _. None };

    ghost failures = { λ _. None };

    fn open(&mut self, path: &str) -> io::Result<()> {
        self.file = Some(File::open(self.rt, path)?);
        Ok(())
    }

    fn read_open(&mut self, piece: &mut [u8]) -> io::Result<usize> {
        match &mut self.file {
            Some(file) => file.read(piece),
            None => Ok(0),
        }
    }

    fn close(&mut self) {
        self.file = None;
    }
}
