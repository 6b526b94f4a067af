//! Buffers replies.
ghost use Rattle.std.specs.Prelude.{◌≡◌, ◌<◌, length};
ghost use Rattle.household_session.specs.Repliers.{RepliesTo};

use crate::replier::Replier;
use m_ports::{BufferedSink, Failed, Origin, Printed, Sink};
use std::marker::Brand;
use std::sync::ledger::Ledger;
use value_sheet::Steps;

/// A replier whose replies go through a buffer: each is written with one call per full buffer, and
/// the buffer is flushed before the next line.
#[derive(Drop)]
pub(crate) struct Buffering<'a, 'r, R> {
    pub(crate) replier: &'a mut R,
    pub(crate) room: &'r mut [u8],
    ghost some: { 0 < length room.now },
}

impl<'a, 'r, R: Replier> Replier for Buffering<'a, 'r, R> {
    ghost replies = { λ s. R.replies s.replier.now };

    fn reply<K: Sink, L: Ledger>(
        &mut self,
        line: &[u8],
        out: &mut K,
        steps: &mut Steps<L>,
    ) -> Result<(), Failed> {
        let room = &mut *self.room;
        reply_whole(self.replier, line, room, out, steps)
    }

    ghost nothing = { λ s. R.nothing s.replier.now };

    ghost long = { λ s. R.long s.replier.now };
}

// Executes a line and writes its reply through a buffer.
fn reply_whole<R: Replier, K: Sink, L: Ledger>(
    replier: &mut R,
    line: &[u8],
    room: &mut [u8],
    out: &mut K,
    steps: &mut Steps<L>,
) -> Result<(), Failed>
    requires { 0 < length room.old }
    ensures replies { RepliesTo K.written K.faults out.old out.new steps.old steps.new result (R.replies replier.old) (R.replies replier.new) line.now }
    ensures size { length room.new ≡ length room.old }
{
    let printed = buffer_reply::<R, K, L, Brand>(replier, line, room, out, steps);
    printed.result
}

// The same, for a given buffered output.
fn buffer_reply<'a, R: Replier, K: Sink, L: Ledger, O: Origin>(
    replier: &mut R,
    line: &[u8],
    room: &'a mut [u8],
    out: &'a mut K,
    steps: &mut Steps<L>,
) -> Printed<'a, K>
    requires name { out.ghost_name ≡ O.name }
    requires start { K.written out.old ≡ O.start }
    requires some { 0 < length room.old }
    ensures name { result.out.ghost_name ≡ out.entry.ghost_name }
    ensures replies { RepliesTo K.written K.faults out.old result.out.now steps.old steps.new result.result
        (R.replies replier.old) (R.replies replier.new) line.now }
{
    let mut buffered = BufferedSink::<'a, K, O>::new(out, room);
    let printed = replier.reply(line, &mut buffered, steps);
    buffered.finish(printed)
}
