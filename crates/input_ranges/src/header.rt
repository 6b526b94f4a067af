//! The header of a file of ranges.
ghost use Rattle.std.specs.Prelude.{◌≡◌};
ghost use Rattle.csv.specs.Records.{fields_of};
ghost use Rattle.input_ranges.specs.Ranges.{are_headings, is_header};

use csv::ByteRecord;
use household::records::field_at;

/// Whether a record is the header.
pub(crate) fn is_header(row: &ByteRecord) -> bool
    ensures { result ≡ is_header (fields_of row.now) }
{
    if row.len() != 4 {
        return false;
    }
    are_headings(
        field_at(row, 0),
        field_at(row, 1),
        field_at(row, 2),
        field_at(row, 3),
    )
}

// Whether four fields are the words of the header.
fn are_headings(code: &[u8], given: &[u8], least: &[u8], greatest: &[u8]) -> bool
    ensures { result ≡ are_headings code.now given.now least.now greatest.now }
{
    code == b"code".as_slice()
        && given == b"given".as_slice()
        && least == b"least".as_slice()
        && greatest == b"greatest".as_slice()
}
