use m_places::{Seq, Source};

/// What a command has gathered, and has to answer.
#[derive(Drop)]
pub enum Work {
    /// This table by this source.
    Table(Source, Seq<u8>),
    /// The facts of this source within these ranges, if any.
    Facts(Source, Option<Seq<u8>>),
    /// This table (the second) by this code file (the first).
    CodeTable(Seq<u8>, Seq<u8>),
    /// The line of the version.
    Version,
}
