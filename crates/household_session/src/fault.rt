/// Why an edit is rejected. A rejected edit changes nothing.
#[derive(Clone, Copy, Debug, PartialEq, Eq)]
pub enum EditFault {
    /// No input has this code.
    UnknownCode,
    /// The amount isn't one, or is out of range.
    BadAmount,
    /// The amount isn't of the type of its input.
    NotOfType,
}
