//! Proves that the rule base and the household of `large N` are valid, for each N from 1 to 100,000.
//!
//! Uses the definitions of m_large and of the compiler's steps, and has no code: it proves the contract of a law.
//! Knows nothing of programs and how they are run.
//!
//! The texts are lists of pieces. Which piece may follow another is computed, with the digits of a number left open.
//! Each literal is followed from its token (`HasAmount`) to the base.
#![tactic(auto)]

mod laws;

pub use laws::large_is_valid;
