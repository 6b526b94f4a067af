use m_places::{Seq, Source};

/// What a command has gathered, and has to answer.
#[derive(Drop)]
pub enum Work {
    /// A run of this source on this household.
    Run(Source, Seq<u8>),
    /// A session of this source that starts with this household.
    Serve(Source, Seq<u8>),
    /// A batch of this source over this table.
    Batch(Source, Seq<u8>),
    /// The generated source of this many inputs.
    Large(u32),
    /// The code file of this source.
    Compile(Source),
    /// A run of this code file on this household.
    Exec(Seq<u8>, Seq<u8>),
    /// A check of this report over the rules of this source and this household.
    Check(Source, Seq<u8>, Seq<u8>),
    /// The findings about this source.
    Lint(Source),
    /// The cases of this table, by this source.
    Cases(Source, Seq<u8>),
}
