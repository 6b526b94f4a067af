//! Printers of rows.
ghost use Rattle.std.specs.Prelude.{◌≡◌, ℕ, List, IfOk};
ghost use Rattle.m_ports.specs.Giving.{Gives};
ghost use Rattle.household.specs.declared.table.Row.{Row};
ghost use Rattle.observables.specs.declared.answer.Answer.{Answer};

use household::Row;
use m_ports::{Failed, Sink};
use observables::Answer;

/// Prints a row and its answer, and counts something about them: for example, prints the answer's
/// lines, or counts and prints expectations that aren't met. Several workers share one printer.
pub trait RowPrinter {
    /// The row at this position, from 0, may be printed with this answer.
    ghost may_print: { Self → ℕ → Row → Answer → Type 0 };

    /// The text of a row.
    ghost text: { Self → ℕ → Row → Answer → List ℕ };

    /// The count of a row.
    ghost count: { Self → ℕ → Row → Answer → ℕ };

    /// Prints a row with its answer, and returns its count. On a failure a prefix of the text was
    /// appended.
    fn print<K: Sink>(
        &self,
        place: usize,
        row: &Row,
        answer: &Answer,
        out: &mut K,
    ) -> Result<u64, Failed>
        requires { may_print self.now place row.now answer.now }
        ensures text { Gives K.written K.faults out.old out.new result (text self.now place row.now answer.now) }
        ensures count { IfOk result (λ n. n ≡ count self.now place row.now answer.now) };
}
