//! Facts are written through a buffer, in pieces of one size.
ghost use Rattle.std.specs.Prelude.{◌≡◌, ◌<◌, length};
ghost use Rattle.m_ports.specs.Giving.{Gives};
ghost use Rattle.m_facts.specs.Lines.{found_text};

use m_facts::{FactsFound, print_facts};
use m_ports::{BufferedSink, Failed, Origin, Printed, Sink};
use micro_m::Base;
use observables::Face;
use std::marker::Brand;

// The size of the buffer in bytes.
const BUFFER_ROOM: usize = 65_536;

/// Writes the lines of facts, in pieces of one size. Takes no memory.
pub(crate) fn give_found<K: Sink>(
    base: &Base,
    face: &Face,
    found: &FactsFound,
    out: &mut K,
) -> Result<(), Failed>
    ensures { Gives K.written K.faults out.old out.new result (found_text base.now face.now found.now) }
{
    let mut room = [0; BUFFER_ROOM];
    let printed = buffer_found::<K, Brand>(base, face, found, &mut room, out);
    printed.result
}

// Writes them through a buffer over these bytes.
fn buffer_found<'a, K: Sink, O: Origin>(
    base: &Base,
    face: &Face,
    found: &FactsFound,
    room: &'a mut [u8],
    out: &'a mut K,
) -> Printed<'a, K>
    requires name { out.ghost_name ≡ O.name }
    requires start { K.written out.old ≡ O.start }
    requires some { 0 < length room.old }
    ensures name { result.out.ghost_name ≡ out.entry.ghost_name }
    ensures gives { Gives K.written K.faults out.old result.out.now result.result (found_text base.now face.now found.now) }
{
    let mut buffered = BufferedSink::<'a, K, O>::new(out, room);
    let printed = print_facts(base, face, found, &mut buffered);
    buffered.finish(printed)
}
