//! Repliers.
ghost use Rattle.std.specs.Prelude.{◌≡◌, [], List, ℕ};
ghost use Rattle.household_session.specs.Repliers.{AreLongAlike, RepliesTo, Replying, none_replied};
ghost use Rattle.household_session.specs.Seats.{seated_replies};
ghost use Rattle.household_session.specs.inner.Alike.{long_alike};

use crate::Session;
use m_ports::{Failed, Sink};
use std::sync::ledger::Ledger;
use value_sheet::Steps;

/// Executes lines of an input and replies to them.
pub trait Replier {
    /// The replies to lines without their line feeds, concatenated, and the steps that they cost.
    ghost replies: { Self → Replying };

    /// Executes a line, given without its line feed, and writes its reply. On a failure a prefix of
    /// the reply was appended; the state is that after the line, and the steps are those that it
    /// costs, in any case. It takes no memory.
    fn reply<K: Sink, L: Ledger>(
        &mut self,
        line: &[u8],
        out: &mut K,
        steps: &mut Steps<L>,
    ) -> Result<(), Failed>
        ensures { RepliesTo K.written K.faults out.old out.new steps.old steps.new result (replies self.old) (replies self.new) line.now };

    /// Without lines there is no reply, and no cost.
    ghost nothing: { (s : Self) → replies s [] ≡ none_replied };

    /// The reply to a line that is too long, and its cost, don't depend on its bytes.
    ghost long: { (s : Self) → AreLongAlike (replies s) };
}

impl Replier for Session {
    ghost use Rattle.std.specs.Prelude.{refl};

    ghost replies = { seated_replies };

    fn reply<K: Sink, L: Ledger>(
        &mut self,
        line: &[u8],
        out: &mut K,
        steps: &mut Steps<L>,
    ) -> Result<(), Failed> {
        self.command(line, out, steps)
    }

    ghost nothing = { λ s. refl };

    ghost long = { long_alike };
}
