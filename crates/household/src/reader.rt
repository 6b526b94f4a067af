//! Configuration of the reader of records.
ghost use Rattle.household.specs.Plain.{ReadsOn};

use csv::Reader;

/// A reader of the records of bytes in memory.
#[derive(Drop)]
pub struct Records<'a> {
    pub(crate) reader: Reader<&'a [u8]>,
    ghost plain: { ∥ ReadsOn reader ∥₁ },
}
