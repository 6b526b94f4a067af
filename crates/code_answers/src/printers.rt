//! What commands print for a row that was computed.
ghost use Rattle.std.specs.Prelude.{◌≡◌};

use household::Row;
use m_batch::RowPrinter;
use m_cases::{Expected, print_mismatches};
use m_places::Seq;
use m_ports::{Failed, Sink};
use observables::{Answer, Face};
use tax_print::print_household;

/// Prints the lines of each answer, and counts nothing.
#[derive(Drop)]
pub(crate) struct AnswerLines<'a> {
    pub face: &'a Face,
}

impl<'a> RowPrinter for AnswerLines<'a> {
    ghost use Rattle.tax_print.specs.Lines.{AnswerIsWithin};
    ghost use Rattle.code_answers.specs.inner.Printers.{lines_by, nothing_counted};

    ghost may_print = { λ p at row answer. AnswerIsWithin p.face.now answer };

    ghost text = { λ p. lines_by p.face.now };

    ghost count = { λ p. nothing_counted };

    fn print<K: Sink>(
        &self,
        _place: usize,
        row: &Row,
        answer: &Answer,
        out: &mut K,
    ) -> Result<u64, Failed> {
        print_household(&row.label, self.face, answer, out)?;
        Ok(0)
    }
}

/// Prints a line for each expectation that an answer doesn't meet, and counts them. The expectations of a row are at
/// the row's place.
#[derive(Drop)]
pub(crate) struct Mismatches<'a> {
    pub face: &'a Face,
    pub expected: &'a [Seq<(u32, Expected)>],
}

impl<'a> RowPrinter for Mismatches<'a> {
    ghost use Rattle.code_answers.specs.inner.Printers.{MayBeCompared, mismatches_by, misses_by};

    ghost may_print = { λ p. MayBeCompared p.face.now p.expected.now };

    ghost text = { λ p. mismatches_by p.face.now p.expected.now };

    ghost count = { λ p. misses_by p.face.now p.expected.now };

    fn print<K: Sink>(
        &self,
        place: usize,
        row: &Row,
        answer: &Answer,
        out: &mut K,
    ) -> Result<u64, Failed> {
        let expected = self.expected[place].as_slice();
        let count = print_mismatches(self.face, &row.label, expected, answer, out)?;
        Ok(u64::from(count))
    }
}
