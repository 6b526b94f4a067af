use m_fixed::Value;
use m_places::Seq;

/// What stops a run. The number is that of a label in the program's interface.
#[derive(Clone, Copy, Debug, PartialEq, Eq)]
pub enum Stop {
    /// A condition is a number other than 0.
    Failed(u32),
    /// A condition is beyond the greatest amount.
    Over(u32),
}

/// The result of a run: the value of each output in order, or what stopped it.
#[derive(Drop)]
pub enum Answer {
    Values(Seq<Value>),
    Stopped(Stop),
}
