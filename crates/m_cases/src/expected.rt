//! Expected and actual values of outputs.

use m_fixed::Value;

/// An expectation of an output: a value, or that the answer is a stop.
#[derive(Clone, Copy, Debug, PartialEq, Eq)]
pub enum Expected {
    Is(Value),
    Stop,
}
