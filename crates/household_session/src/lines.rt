//! Splits bytes into lines.
ghost use Rattle.std.specs.Prelude.{◌≤◌, length, take, drop, IfOk, OnErr};
ghost use Rattle.household_session.specs.Replies.{IsUnended};
ghost use Rattle.household_session.specs.Repliers.{over_ended};
ghost use Rattle.household_session.specs.inner.Going.{BreaksOff, Goes};

use crate::replier::Replier;
use m_ports::{Failed, Sink};
use m_text::line_end;
use std::sync::ledger::Ledger;
use value_sheet::Steps;

/// Executes each line whose line feed is among the bytes; the first `held` bytes contain none.
/// Returns where the bytes after the last line feed begin.
pub(crate) fn do_ended<R: Replier, K: Sink, L: Ledger>(
    replier: &mut R,
    bytes: &[u8],
    held: usize,
    out: &mut K,
    steps: &mut Steps<L>,
) -> Result<usize, Failed>
    requires within { held ≤ length bytes.now }
    requires unended { IsUnended (take held bytes.now) }
    ensures goes { IfOk result (λ from. Goes K.written K.faults out.old out.new steps.old steps.new
        (R.replies replier.old) (R.replies replier.new) bytes.now (drop from bytes.now)) }
    ensures place { IfOk result (λ from. (from ≤ length bytes.now) × IsUnended (drop from bytes.now)) }
    ensures breaks { OnErr result (BreaksOff K.written K.faults out.old out.new steps.old steps.new (over_ended (R.replies replier.old) bytes.now)) }
{
    let mut from = 0;
    let mut end = line_end(bytes, held);
    while end < bytes.len() {
        replier.reply(&bytes[from..end], out, steps)?;
        from = end + 1;
        end = line_end(bytes, from);
    }
    Ok(from)
}
