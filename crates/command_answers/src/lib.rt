//! The answers of a source, printed as they are made: a run, a session, a batch, cases, its code file, and `large N`.
//!
//! Uses the compiler, code_answers for all answers of code, and sessions with reasons. Knows nothing of the words of
//! the command line, and fetches no file.
//!
//! A program is prepared from a source and then run: sessions keep the tidy program (`Program`) and take no registers,
//! all other answers use code (`Loaded`). `serve` reads nothing from the input before its session has started.
#![tactic(auto)]

mod batch;
mod cases;
mod compile;
mod large;
mod program;
mod run;
mod serving;
mod session;

pub use batch::batch_source;
pub use cases::cases_source;
pub use compile::compile_source;
pub use large::run_large;
pub use program::prepare_code;
pub use run::run_source;
pub use serving::serve_source;
