//! The loop over the lines of an input.
ghost use Rattle.std.specs.Prelude.{◌≡◌, ◌<◌, ◌≤◌, length, take};
ghost use Rattle.household_session.specs.Replies.{IsUnended};
ghost use Rattle.household_session.specs.Serving.{Counts, Ends};
ghost use Rattle.household_session.specs.inner.Going.{Finished, Turned};

use crate::buffer::Buffering;
use crate::lines::do_ended;
use crate::pieces::{MOST_HELD, keep, take_piece};
use crate::replier::Replier;
use m_places::limits::INPUT_BYTES;
use m_ports::{Failed, Sink, Source};
use std::sync::ledger::Ledger;
use value_sheet::Steps;

/// How the loop of a session ended.
#[derive(Clone, Copy, Debug, PartialEq, Eq)]
pub enum ServeEnd {
    /// The input was read to its end, and each line was replied to.
    Done,
    /// A read failed. All lines whose line feed was read were replied to.
    ReadFault,
    /// A write failed. A prefix was written of the replies to the lines that have their line feed
    /// or, at the end of the input, to all lines.
    WriteFault,
    /// `INPUT_BYTES` bytes were read without the end of the input. All lines whose line feed was
    /// read were replied to.
    TooLong,
}

// The size of the loop's buffer in bytes: an incomplete line, of which 4,097 are enough, and a
// piece of the input.
const ROOM: usize = 8_193;

// The size of the buffer of a reply in bytes.
const REPLY_ROOM: usize = 65_536;

/// Executes the lines of an input in order, each by `Replier::reply`, until the input ends, a read
/// or a write fails, or `INPUT_BYTES` bytes were read. Of a line that is too long only its first
/// bytes are held. The last line needs no line feed. A reply is written completely before the next
/// line is executed, in pieces of 65,536 bytes. It takes the steps that the lines cost, and no
/// memory.
pub fn serve<R: Replier, S: Source, K: Sink, L: Ledger>(
    replier: &mut R,
    input: &mut S,
    out: &mut K,
    steps: &mut Steps<L>,
) -> ServeEnd
    ensures end { Ends (S.left input.old) (S.left input.new) (K.written out.old) (K.written out.new) steps.old steps.new (R.replies replier.old) result }
    ensures counts { Counts (S.faults input.old) (S.faults input.new) (K.faults out.old) (K.faults out.new) result }
{
    let mut room = [0; ROOM];
    let mut replies = [0; REPLY_ROOM];
    let mut buffering = Buffering {
        replier,
        room: &mut replies,
    };
    serve_in(&mut buffering, input, out, &mut room, steps)
}

// The same, with a given buffer.
fn serve_in<R: Replier, S: Source, K: Sink, L: Ledger>(
    replier: &mut R,
    input: &mut S,
    out: &mut K,
    room: &mut [u8],
    steps: &mut Steps<L>,
) -> ServeEnd
    requires { length room.old ≡ ROOM }
    ensures end { Ends (S.left input.old) (S.left input.new) (K.written out.old) (K.written out.new) steps.old steps.new (R.replies replier.old) result }
    ensures counts { Counts (S.faults input.old) (S.faults input.new) (K.faults out.old) (K.faults out.new) result }
{
    let mut taken = 0;
    let mut held = 0;
    while taken < INPUT_BYTES {
        match turn(replier, input, out, room, held, INPUT_BYTES - taken, steps) {
            Ok((left, count)) => {
                held = left;
                taken += count as u64;
            }
            Err(end) => return end,
        }
    }
    ServeEnd::TooLong
}

// Reads a piece of at most `most` bytes after those that are held, and executes the lines that it
// completes. Returns how many bytes are then held, and how many were read.
fn turn<R: Replier, S: Source, K: Sink, L: Ledger>(
    replier: &mut R,
    input: &mut S,
    out: &mut K,
    room: &mut [u8],
    held: usize,
    most: u64,
    steps: &mut Steps<L>,
) -> Result<(usize, usize), ServeEnd>
    requires room { length room.old ≡ ROOM }
    requires some { 0 < most }
    requires few { held ≤ MOST_HELD }
    requires unended { IsUnended (take held room.old) }
    ensures { Turned S.left S.faults K.written K.faults input.old input.new out.old out.new steps.old steps.new (R.replies replier.old) (R.replies replier.new)
        (take held room.old) room.new most result }
{
    let count = match take_piece(input, room, held, most) {
        Err(Failed) => return Err(ServeEnd::ReadFault),
        Ok(0) => return Err(finish(replier, &room[..held], out, steps)),
        Ok(count) => count,
    };
    match do_ended(replier, &room[..held + count], held, out, steps) {
        Err(Failed) => Err(ServeEnd::WriteFault),
        Ok(from) => Ok((keep(room, from, held + count), count)),
    }
}

// Executes the last line if it has no line feed and isn't empty.
fn finish<R: Replier, K: Sink, L: Ledger>(
    replier: &mut R,
    held: &[u8],
    out: &mut K,
    steps: &mut Steps<L>,
) -> ServeEnd
    requires { IsUnended held.now }
    ensures { Finished K.written K.faults out.old out.new steps.old steps.new (R.replies replier.old) held.now result }
{
    if held.is_empty() {
        return ServeEnd::Done;
    }
    match replier.reply(held, out, steps) {
        Ok(()) => ServeEnd::Done,
        Err(Failed) => ServeEnd::WriteFault,
    }
}
