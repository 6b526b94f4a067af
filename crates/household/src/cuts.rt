//! Finds where records end in a table without quotation marks, without parsing it: a record ends
//! where its line does.
ghost use Rattle.std.specs.Prelude.{◌≡◌, ◌==◌, ◌-◌, ◌≤◌, IfOk, drop, length};
ghost use Rattle.std.specs.List.{list_any};
ghost use Rattle.csv.specs.Reading.{is_bom, strip_bom};
ghost use Rattle.std.specs.Prelude.{◌<◌, get_or};
ghost use Rattle.household.specs.Records.{records_of};
ghost use Rattle.household.specs.Lines.{HasNoQuote};
ghost use Rattle.household.specs.inner.Cuts.{AreCuts, GoesOver, GoesOverAll, IsCut, IsLine, left_at};

use memchr::{memchr, memchr2};
use std::alloc::{AllocError, Global};

/// The number of records from one cut to the next.
pub(crate) const BETWEEN: usize = 256;

/// Whether bytes contain a quotation mark.
pub(crate) fn has_quote(bytes: &[u8]) -> bool
    ensures { result ≡ list_any (λ byte. byte == 34) bytes.now }
{
    memchr(b'"', bytes).is_some()
}

/// The position where the first record ends, or the length of the bytes if there is no record.
pub(crate) fn first_cut(bytes: &[u8]) -> usize
    requires { HasNoQuote bytes.now }
    ensures cut { IsCut bytes.now result }
    ensures left { left_at bytes.now result ≡ drop 1 (records_of bytes.now) }
{
    match record_end(bytes, start_of(bytes)) {
        Some(end) => end,
        None => bytes.len(),
    }
}

/// Cuts between the records after the first: `first`, then one after each 256 records. Its only
/// error is running out of memory.
pub(crate) fn cuts_of(alloc: Global, bytes: &[u8], first: usize) -> Result<Vec<usize>, AllocError>
    requires quote { HasNoQuote bytes.now }
    requires cut { IsCut bytes.now first }
    ensures { IfOk result (λ cuts. AreCuts bytes.now (left_at bytes.now first) cuts.items) }
{
    let mut cuts = Vec::new(alloc);
    let mut cut = first;
    cuts.push(cut)?;
    while let Some(next) = records_end(bytes, cut, BETWEEN) {
        cut = next;
        cuts.push(cut)?;
    }
    Ok(cuts)
}

// The position where the last of `count` records ends, if there are that many.
fn records_end(bytes: &[u8], from: usize, count: usize) -> Option<usize>
    requires quote { HasNoQuote bytes.now }
    requires cut { IsCut bytes.now from }
    ensures { GoesOverAll bytes.now count from result }
{
    let mut at = from;
    for _ in 0..count {
        match record_end(bytes, at) {
            Some(end) => at = end,
            None => return None,
        }
    }
    Some(at)
}

// The position where the next record ends, if there is one. Empty lines are no records.
fn record_end(bytes: &[u8], from: usize) -> Option<usize>
    requires quote { HasNoQuote bytes.now }
    requires within { from ≤ length bytes.now }
    ensures { GoesOver bytes.now from result }
{
    let mut at = from;
    while at < bytes.len() {
        let end = line_end(bytes, at);
        if end > at {
            return Some(end);
        }
        at += 1;
    }
    None
}

// The position of the first line end from `from` on, or the length of the bytes.
fn line_end(bytes: &[u8], from: usize) -> usize
    requires { from ≤ length bytes.now }
    ensures forward { from ≤ result }
    ensures within { result ≤ length bytes.now }
    ensures line { IsLine (result - from) (drop from bytes.now) }
{
    match memchr2(b'\r', b'\n', &bytes[from..]) {
        Some(place) => from + place,
        None => bytes.len(),
    }
}

// Whether the bytes begin with a byte order mark.
fn is_mark(bytes: &[u8]) -> bool
    requires { 2 < length bytes.now }
    ensures { result ≡ is_bom (get_or bytes.now 0 0) (get_or bytes.now 1 0) (get_or bytes.now 2 0) }
{
    bytes[0] == 239 && bytes[1] == 187 && bytes[2] == 191
}

// Where the first record begins: after the byte order mark, if there is one.
fn start_of(bytes: &[u8]) -> usize
    ensures within { result ≤ length bytes.now }
    ensures text { drop result bytes.now ≡ strip_bom bytes.now }
{
    if bytes.len() < 3 {
        return 0;
    }
    if is_mark(bytes) { 3 } else { 0 }
}
