//! Tests of flat programs and their later forms: the tidy form, register code, the machine that runs it and code
//! files, value sheets, and batches.
//!
//! Uses the public calls of those crates only. Knows nothing of their proofs: it is a crate of its own, so that they
//! aren't proved a second time with their tests. The code written for a source, and the answers of code files,
//! sessions and tables, are tested by the rows of the program `rows`, which cost no proof.
#![tactic(auto)]

#[cfg(test)]
mod edges;
#[cfg(test)]
mod numbers;
#[cfg(test)]
mod programs;
#[cfg(test)]
mod reads;
#[cfg(test)]
mod sets;
#[cfg(test)]
mod sheets;
#[cfg(test)]
mod two_threads;
