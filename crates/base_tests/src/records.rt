//! Reading records from memory never fails. The crate `csv` leaves open that the reader below it fails, which
//! household reports as out of memory: these texts and all their prefixes are read to their end.
use crate::rows::check;
use csv::ByteRecord;
use household::records::{next_record, records_of};
use std::alloc::Global;
use std::test::Fail;

/// A text, and its number of records.
static TEXTS: [(&str, usize); 14] = [
    ("code,amount\n1AJ,2500.5\n", 2),
    ("name,1AJ,1BJ\r\ndupont,1,\r\nmartin,,2", 3),
    ("name,1AJ\n\"du\"\"pont\",\"1\n", 2),
    ("\u{feff}code,amount\n1AJ,1\n", 2),
    ("\u{feff}\u{feff}\n\u{feff}", 2),
    ("a\r\rb\n\r\n\rc", 3),
    ("\n\r\n\r\r", 0),
    ("a,b\nc\n,,,\n\"\"", 4),
    ("\"", 1),
    ("\"\"\"", 1),
    ("a\"b,\"c\"d\"e\n\"f\",\"g\"\r\"h", 3),
    ("\0,\u{1}\n\u{7f},é\n", 2),
    (";\t 'x'\n\\\"\n", 2),
    ("", 0),
];

/// The number of records of these bytes, or None if the reading failed.
fn count_records(alloc: Global, bytes: &[u8]) -> Option<usize> {
    let mut records = records_of(alloc, bytes);
    let mut row = ByteRecord::new(alloc);
    for count in 0..=bytes.len() {
        match next_record(&mut records, &mut row) {
            Ok(true) => {}
            Ok(false) => return Some(count),
            Err(_) => return None,
        }
    }
    None
}

/// Whether each prefix of a text is read to its end, and the whole text has this many records.
fn is_read(alloc: Global, text: &str, records: usize) -> bool {
    let bytes = text.as_bytes();
    for end in 0..bytes.len() {
        if count_records(alloc, &bytes[..end]).is_none() {
            return false;
        }
    }
    count_records(alloc, bytes) == Some(records)
}

/// The place of the first text for which this doesn't hold, if any.
fn first_other(alloc: Global, texts: &[(&str, usize)]) -> Option<usize> {
    for place in 0..texts.len() {
        let (text, records) = texts[place];
        if !is_read(alloc, text, records) {
            return Some(place);
        }
    }
    None
}

#[test]
fn texts_are_read_to_their_end(rt: HostRuntime) -> Result<(), Fail> {
    check(rt.alloc(), first_other(rt.alloc(), &TEXTS))
}
