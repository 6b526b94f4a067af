use m_places::{Name, Seq};

/// The contents of a list file.
#[derive(Drop)]
pub struct Listing {
    /// The application: a rule or verification belongs to the source only if it lists this word.
    pub application: Name,
    /// The names of the rule files, in order.
    pub files: Seq<Name>,
}
