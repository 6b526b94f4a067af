//! The versions in memory: how a source and a sink fail at a call, and continue with the next.
use m_places::Name;
use m_ports::{FetchFault, Files, MemSink, MemSource, Sink, Source};
use std::alloc::Global;
use std::test::Fail;

/// Adds bytes. If memory runs out some are missing, so the text differs from the expected one.
fn add(text: &mut Vec<u8>, bytes: &[u8]) {
    let _added = text.extend_from_slice(bytes);
}

/// Whether a fetch through the bound has this fault.
pub fn is_fault<F: Files>(
    files: &mut F,
    alloc: Global,
    name: &[u8],
    limit: u64,
    wanted: FetchFault,
) -> bool {
    match Name::new(alloc, name) {
        Ok(name) => match files.fetch(alloc, &name, limit) {
            Ok(_) => false,
            Err(fault) => fault == wanted,
        },
        Err(_) => false,
    }
}

/// Whether a fetch through the bound gives these bytes.
pub fn is_content<F: Files>(
    files: &mut F,
    alloc: Global,
    name: &[u8],
    limit: u64,
    want: &[u8],
) -> bool {
    match Name::new(alloc, name) {
        Ok(name) => match files.fetch(alloc, &name, limit) {
            Ok(bytes) => bytes.as_slice() == want,
            Err(_) => false,
        },
        Err(_) => false,
    }
}

/// Adds all bytes of an input up to its end, in pieces of at most four bytes. Gives the number of failed calls.
fn drain<S: Source>(input: &mut S, bytes: &mut Vec<u8>) -> u32 {
    let mut failures = 0u32;
    for _ in 0..100 {
        let mut piece = [0; 4];
        match input.take(&mut piece) {
            Ok(0) => break,
            Ok(count) => add(bytes, &piece[..count]),
            Err(_) => failures = failures.saturating_add(1),
        }
    }
    failures
}

/// Whether an input gives these bytes up to its end, with this many failed calls.
pub fn is_drained<S: Source>(input: &mut S, alloc: Global, want: &[u8], failures: u32) -> bool {
    let mut bytes = Vec::new(alloc);
    drain(input, &mut bytes) == failures && bytes.as_slice() == want
}

/// Whether an input of seven bytes is read to its end with one failed call.
fn is_input(alloc: Global, text: Vec<u8>, failing: Vec<u64>) -> bool {
    let mut input = MemSource::new(text, 3, failing);
    let before = input.left();
    is_drained(&mut input, alloc, b"seven77", 1) && before == 7 && input.left() == 0
}

#[test]
fn input_in_memory_goes_on(rt: HostRuntime) -> Result<(), Fail> {
    let failing = vec![in rt.alloc(); 2]?;
    let text = Vec::from_slice(rt.alloc(), b"seven77")?;
    assert!(rt; is_input(rt.alloc(), text, failing));
    Ok(())
}

/// Whether an output whose first call fails continues with the next.
fn goes_on(out: &mut MemSink) -> bool {
    let failed = out.give(b"abc").is_err();
    let next = out.give(b"abc") == Ok(2);
    failed && next && out.written() == b"ab".as_slice()
}

#[test]
fn output_in_memory_goes_on(rt: HostRuntime) -> Result<(), Fail> {
    let failing = vec![in rt.alloc(); 1]?;
    let mut out = MemSink::new(rt.alloc(), 2, failing)?;
    assert!(rt; goes_on(&mut out));
    Ok(())
}
