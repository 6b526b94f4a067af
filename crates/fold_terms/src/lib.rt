//! Builds flat programs whose nodes are folded and shared at all times: constants are folded by
//! facts, seven algebraic forms are simplified, and equal nodes are shared.
//!
//! Uses `flat_code`, `definedness` for facts and `common_terms` for sharing. Knows nothing of
//! drivers or rules. A simplification inspects a node and its arguments, and no deeper.
#![tactic(auto)]

mod build;
mod forms;
mod known;
mod parts;
mod simple;

pub use build::Builder;
