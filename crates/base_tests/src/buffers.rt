//! Tests of buffers: the calls by which a text is written.
ghost use Rattle.std.specs.Prelude.{◌≡◌, ◌<◌, length};

use crate::rows::check;
use m_ports::{BufferedSink, MemSink, Origin, Printed, Sink, give_all};
use std::alloc::Global;
use std::marker::Brand;
use std::test::Fail;

/// A text of 13 bytes.
const TEXT: &[u8] = b"IRN = 1500.5\n";

/// The size of the buffer; the number of the failing call of an output that takes everything given; whether the whole
/// text is written; and how many bytes of it are.
static BUFFERS: [(usize, u64, bool, usize); 9] = [
    (5, 4, true, 13),
    (5, 3, false, 10),
    (5, 2, false, 5),
    (5, 1, false, 0),
    (1, 14, true, 13),
    (1, 13, false, 12),
    (13, 2, true, 13),
    (13, 1, false, 0),
    (65_536, 2, true, 13),
];

fn buffers() -> &'static [(usize, u64, bool, usize)] {
    &BUFFERS
}

fn through<'a, K: Sink, O: Origin>(room: &'a mut [u8], out: &'a mut K) -> Printed<'a, K>
    requires name { out.ghost_name ≡ O.name }
    requires start { K.written out.old ≡ O.start }
    requires some { 0 < length room.old }
{
    let mut buffered = BufferedSink::<'a, K, O>::new(out, room);
    let printed = give_all(&mut buffered, TEXT);
    buffered.finish(printed)
}

// Whether the text is written wholly or not, as expected, and this many bytes of it.
fn is_given_so(room: &mut [u8], out: &mut MemSink, given: bool, written: usize) -> bool {
    if room.is_empty() {
        return false;
    }
    let printed = through::<MemSink, Brand>(room, out);
    let all = printed.result.is_ok();
    let reported = out.written();
    all == given && reported.len() == written && TEXT.starts_with(reported)
}

fn is_row(alloc: Global, row: &(usize, u64, bool, usize)) -> bool {
    let Ok(failing) = vec![in alloc; row.1] else {
        return false;
    };
    let Ok(mut out) = MemSink::new(alloc, 1_000_000, failing) else {
        return false;
    };
    let mut room = [0; 65_536];
    is_given_so(&mut room[..row.0.min(65_536)], &mut out, row.2, row.3)
}

/// The first row with another result.
fn first_other(alloc: Global) -> Option<usize> {
    for (number, row) in buffers().iter().enumerate() {
        if !is_row(alloc, row) {
            return Some(number);
        }
    }
    None
}

#[test]
fn given_by_rooms(rt: HostRuntime) -> Result<(), Fail> {
    check(rt.alloc(), first_other(rt.alloc()))
}
