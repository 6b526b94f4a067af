//! The progress of the allocator, and its limits.

/// The limit on the number of nodes, of checks and of outputs.
pub const MOST: usize = 200_000_000;

/// The number of nodes that are made, of nodes whose arguments are read, and of checks that are
/// done.
#[derive(Clone, Copy)]
pub struct Moment {
    pub made: usize,
    pub read: usize,
    pub checked: usize,
}
