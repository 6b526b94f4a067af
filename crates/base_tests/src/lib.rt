//! Tests of the crates below the language and of those at the edges of the program: facts and the inputs on which
//! nodes depend, names, files and streams, and buffers.
//!
//! Uses the public calls of those crates only. Knows nothing of their proofs: it is a crate of its own, so that they
//! aren't proved a second time with their tests. Crates tested over the same libraries share one crate of tests, since
//! each crate of tests loads its libraries anew. What the program prints for files such as households and tables is
//! tested by the rows of the program `rows`, which cost no proof.
#![tactic(auto)]

#[cfg(test)]
mod buffers;
#[cfg(test)]
mod facts;
#[cfg(test)]
mod faults;
#[cfg(test)]
mod large;
#[cfg(test)]
mod names;
#[cfg(test)]
mod pairs;
#[cfg(test)]
mod ports;
#[cfg(test)]
mod reads;
#[cfg(test)]
mod records;
#[cfg(test)]
mod rows;
#[cfg(test)]
mod shared;
#[cfg(test)]
mod system;
#[cfg(test)]
mod threads;
