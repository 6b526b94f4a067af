/// A position in the rule files, as error messages print it.
#[derive(Clone, Copy, Debug, PartialEq, Eq)]
pub struct Place {
    /// The number of the file in the list, from 0.
    pub file: u32,
    /// The byte in the file, from 0.
    pub byte: u32,
    /// The line in the file, from 1.
    pub line: u32,
}
