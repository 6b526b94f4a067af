//! What no contract states: that calls succeed, and how the adapters behave on the real system.
use crate::ports::{is_content, is_drained, is_fault};
use m_ports::{FetchFault, Files, HostFiles, HostSink, HostSource, give_all};
use std::alloc::Global;
use std::io::{ErrorKind, Read, Write};
use std::test::Fail;
use std::{env, fs, io, rt};

/// This many bytes, in which neighbours and pieces differ.
fn varied(alloc: Global, count: u32) -> Vec<u8> {
    let mut bytes = Vec::new(alloc);
    for number in 0..count {
        let _added = bytes.push((number % 251) as u8);
    }
    bytes
}

/// Whether a file of these 20,000 bytes is fetched under a limit that is no less, and a path that is no file isn't. Of
/// an endless file no more is read than shows that it is too long.
fn is_file<F: Files>(files: &mut F, alloc: Global, path: &[u8], text: &[u8]) -> bool {
    is_content(files, alloc, path, 20_000, text)
        && is_fault(files, alloc, path, 19_999, FetchFault::TooLong)
        && is_fault(files, alloc, b"/dev/zero", 20_000, FetchFault::TooLong)
        && is_fault(files, alloc, b"/missing", 9, FetchFault::Failed)
        && is_fault(files, alloc, b"/", 9, FetchFault::Failed)
        && is_fault(files, alloc, &[255], 9, FetchFault::Failed)
}

/// Whether an empty file is fetched more often than a process may have open files.
fn is_fetched_often<F: Files>(files: &mut F, alloc: Global) -> bool {
    for _ in 0..1_028u32 {
        if !is_content(files, alloc, b"/dev/null", 0, b"") {
            return false;
        }
    }
    true
}

/// Writes a file at this path, fetches it and others, and removes it. Whether all fetches hold.
fn is_written<H: rt::Files>(rt: &H, alloc: Global, path: &str) -> io::Result<bool> {
    let text = varied(alloc, 20_000);
    fs::write(rt, path, text.as_slice())?;
    let mut files = HostFiles::new(alloc, rt);
    let is_file = is_file(&mut files, alloc, path.as_bytes(), &text)
        && is_fetched_often(&mut files, alloc);
    let _removed = fs::remove_file(rt, path);
    Ok(is_file)
}

#[test]
fn files_of_the_system(rt: HostRuntime) -> Result<(), Fail> {
    let directory = env::temp_dir(&rt)?.into_string();
    let process = std::process::id(rt.process());
    let path = format!(in rt.alloc(); "{directory}/m_ports_{process}")?;
    assert!(rt; is_written(&rt, rt.alloc(), path.as_str())?);
    Ok(())
}

/// A reader that gives two bytes at most, and fails at its second call.
#[derive(Drop)]
struct Failing<'a> {
    rest: &'a [u8],
    calls: u8,
}

impl Read for Failing<'_> {
    fn read(&mut self, piece: &mut [u8]) -> io::Result<usize> {
        self.calls = self.calls.saturating_add(1);
        if self.calls == 2 {
            return Err(io::Error::new(ErrorKind::Other, "the second read"));
        }
        let count = piece.len().min(2);
        self.rest.read(&mut piece[..count])
    }
}

#[test]
fn input_over_a_reader_that_fails(rt: HostRuntime) {
    let text = b"seven77";
    let failing = Failing {
        rest: text,
        calls: 0,
    };
    let mut input = HostSource::new(failing);
    assert!(rt; is_drained(&mut input, rt.alloc(), text, 1));
}

/// A writer that takes two bytes at a time, and fails at its third call by taking none.
#[derive(Drop)]
struct Tired<'a> {
    taken: &'a mut Vec<u8>,
    calls: u8,
}

impl Write for Tired<'_> {
    fn write(&mut self, piece: &[u8]) -> io::Result<usize> {
        self.calls = self.calls.saturating_add(1);
        if self.calls == 3 {
            return Ok(0);
        }
        let count = piece.len().min(2);
        self.taken.extend_from_slice(&piece[..count])?;
        Ok(count)
    }

    fn flush(&mut self) -> io::Result<()> {
        Ok(())
    }
}

/// Whether an output whose third call fails writes the bytes of the first two, and continues with the next.
fn goes_on(alloc: Global) -> bool {
    let mut taken = Vec::new(alloc);
    let mut out = HostSink::new(Tired {
        taken: &mut taken,
        calls: 0,
    });
    let failed = give_all(&mut out, b"IRN = 1").is_err();
    let next = give_all(&mut out, b"x\n!").is_ok();
    drop(out);
    failed && next && taken.as_slice() == b"IRN x\n!".as_slice()
}

#[test]
fn output_over_a_writer_goes_on(rt: HostRuntime) {
    assert!(rt; goes_on(rt.alloc()));
}
