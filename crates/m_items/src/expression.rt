//! Terms and headers at a cursor.
ghost use Rattle.std.specs.Prelude.{◌≡◌, ◌<◌, length, OnOk};
ghost use Rattle.m_items.specs.inner.DeclarationReading.{Gives};
ghost use Rattle.m_items.specs.inner.RuleReading.{item_fault_of, term_at, headed_at};

use crate::cursor::ItemCursor;
use crate::item_fault::ItemFault;
use m_ast::{Header, Term};
use m_terms::{TermFault, read_header, read_term};
use std::alloc::Global;

fn item_fault(fault: TermFault) -> ItemFault
    ensures { result ≡ item_fault_of fault }
{
    match fault {
        TermFault::NoTerm => ItemFault::NoItem,
        TermFault::Memory => ItemFault::Memory,
    }
}

/// A term that is followed by a token that may follow one.
pub fn term(alloc: Global, cursor: &mut ItemCursor<'_>) -> Result<Term, ItemFault>
    ensures reads { Gives result (term_at cursor.old) cursor.new }
    ensures shorter { OnOk result (length cursor.new < length cursor.old) }
{
    match read_term(alloc, cursor.left(), 0) {
        Ok((term, to)) => {
            cursor.skip(to);
            Ok(term)
        }
        Err(fault) => Err(item_fault(fault)),
    }
}

/// A header that is followed by a colon.
pub fn header(alloc: Global, cursor: &mut ItemCursor<'_>) -> Result<Header, ItemFault>
    ensures reads { Gives result (headed_at cursor.old) cursor.new }
    ensures shorter { OnOk result (length cursor.new < length cursor.old) }
{
    match read_header(alloc, cursor.left(), 0) {
        Ok((header, to)) => {
            cursor.skip(to);
            Ok(header)
        }
        Err(fault) => Err(item_fault(fault)),
    }
}
