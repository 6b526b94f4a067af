//! Tests of the crates that read the language and its drivers, of the cost of drivers, and of values with a given
//! number of turns.
//!
//! Uses the public calls of those crates only. Knows nothing of their proofs: it is a crate of its own, so that they
//! aren't proved a second time with their tests. What rules mean, what requests resolve to, and why sources are
//! rejected, is tested by the rows of the program `rows`.
#![tactic(auto)]

#[cfg(test)]
mod declarations;
#[cfg(test)]
mod drivers;
#[cfg(test)]
mod items;
#[cfg(test)]
mod kinds;
#[cfg(test)]
mod lines;
#[cfg(test)]
mod meeting;
#[cfg(test)]
mod nests;
#[cfg(test)]
mod readings;
#[cfg(test)]
mod terms;
#[cfg(test)]
mod texts;
#[cfg(test)]
mod threads;
#[cfg(test)]
mod tokens;
#[cfg(test)]
mod turns;
#[cfg(test)]
mod twice;
#[cfg(test)]
mod weights;
