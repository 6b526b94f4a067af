/// A hook that a worker calls before each piece of work, such as a row of a table or a rule file.
/// No answer depends on it. Tests use it to check that pieces run in parallel: a gate can wait until
/// another piece has begun.
pub trait Gate {
    /// Passes the piece with this number, from 0. It must return, and takes no memory.
    fn pass(&self, n: u32);
}

/// The gate that every piece passes at once.
#[derive(Clone, Copy, Debug)]
pub struct Open;

impl Gate for Open {
    fn pass(&self, _n: u32) {}
}
