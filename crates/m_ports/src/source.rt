//! An input that is read piece by piece.
ghost use Rattle.std.specs.Prelude.{◌≡◌, ℕ, ◌<◌, ◌≤◌, List, Option, length, take, IfOk, OnOk, OnErr};
ghost use Rattle.std.specs.Io.KnownBytes.{prepend_known, IsAtEnd};
ghost use Rattle.m_ports.specs.Counts.{Rose};

/// A read or a write failed. The object's count of faults rose; nothing else is known of the
/// failure.
#[derive(Clone, Copy, Debug, PartialEq, Eq)]
pub struct Failed;

/// An input; bytes are taken from its start.
pub trait Source {
    /// The bytes that are left, if they are known.
    ghost left: { Self → Option (List ℕ) };

    /// The number of failures so far, saturating.
    ghost faults: { Self → ℕ };

    /// Moves the first bytes that are left to the start of the piece, and returns how many; 0 means
    /// the end of the input. The rest of the piece is unspecified. It never fails for lack of
    /// memory.
    fn take(&mut self, piece: &mut [u8]) -> Result<usize, Failed>
        requires { 0 < length piece.old }

        ensures within { IfOk result (λ n. n ≤ length piece.new) }
        ensures moved { IfOk result (λ n. left self.old ≡ prepend_known (take n piece.new) (left self.new)) }
        ensures end { IfOk result (λ n. n ≡ 0 → IsAtEnd (left self.old)) }

        ensures failed { OnErr result (Rose (faults self.old) (faults self.new)) }
        ensures kept { OnErr result (left self.new ≡ left self.old) }

        // Every failure is reported: if the call succeeds, none was counted.
        ensures faultless { OnOk result (faults self.new ≡ faults self.old) }
        ensures counted { faults self.old ≤ faults self.new };
}
