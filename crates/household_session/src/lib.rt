//! A session: one household of a flat program, whose amounts are edited and whose answer can be
//! shown at any time; and the loop that replies to the lines of an input.
//!
//! Uses `value_sheet`, so that a show evaluates only the nodes affected by the edits since the last
//! one, and the inputs and outputs of `m_ports`. Knows nothing of files. Its loop knows how an
//! input that arrives in pieces is split into lines, and nothing of the commands (`Replier`). Only
//! the start of a session takes memory.
//!
//! A line over 4,096 bytes is rejected whatever its bytes, so the loop holds at most 4,097. Replies
//! go through a buffer that is flushed after each line. `Ends`, the effect of the loop, mentions
//! the bytes read even if the contents of the input aren't known.
#![tactic(auto)]

mod buffer;
mod command;
mod fault;
pub mod laws;
mod lines;
mod outputs;
mod pieces;
mod replier;
mod seat;
mod session;
mod turns;
mod words;

pub use fault::EditFault;
pub use replier::Replier;
pub use session::Session;
pub use turns::{ServeEnd, serve};
pub use words::next_word;
