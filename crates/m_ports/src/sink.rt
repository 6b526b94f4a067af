//! An output that is written piece by piece, and `give_all`, which writes all of a text.
ghost use Rattle.std.specs.Prelude.{◌≡◌, ℕ, ◌<◌, ◌≤◌, List, Option, length, take, IfOk, OnOk, OnErr};
ghost use Rattle.std.specs.Io.KnownBytes.{append_known};
ghost use Rattle.m_ports.specs.Counts.{Rose};
ghost use Rattle.m_ports.specs.Sink.{AppendsPrefix};

use crate::Failed;

/// An output; bytes are appended to its end.
pub trait Sink {
    /// The written bytes, if they are known.
    ghost written: { Self → Option (List ℕ) };

    /// The number of failures so far, saturating.
    ghost faults: { Self → ℕ };

    /// Appends a prefix of the piece, of at least one byte if it has any, and returns its length.
    /// It never fails for lack of memory.
    fn give(&mut self, piece: &[u8]) -> Result<usize, Failed>
        ensures within { IfOk result (λ n. n ≤ length piece.now) }
        ensures some { IfOk result (λ n. 0 < length piece.now → 0 < n) }
        ensures appended { IfOk result (λ n. written self.new ≡ append_known (written self.old) (take n piece.now)) }

        ensures failed { OnErr result (Rose (faults self.old) (faults self.new)) }
        ensures kept { OnErr result (written self.new ≡ written self.old) }

        // Every failure is reported: if the call succeeds, none was counted.
        ensures faultless { OnOk result (faults self.new ≡ faults self.old) }
        ensures counted { faults self.old ≤ faults self.new };
}

/// Gives all the bytes, in as many calls as the output needs. On a failure a prefix of them was
/// appended. It never fails for lack of memory.
pub fn give_all<K: Sink>(out: &mut K, bytes: &[u8]) -> Result<(), Failed>
    ensures all { OnOk result (K.written out.new ≡ append_known (K.written out.old) bytes.now) }

    ensures failed { OnErr result (Rose (K.faults out.old) (K.faults out.new)) }
    ensures prefix { OnErr result (AppendsPrefix (K.written out.old) (K.written out.new) bytes.now) }

    ensures faultless { OnOk result (K.faults out.new ≡ K.faults out.old) }
    ensures counted { K.faults out.old ≤ K.faults out.new }
{
    let mut given = 0;
    while given < bytes.len() {
        given += out.give(&bytes[given..])?;
    }
    Ok(())
}
