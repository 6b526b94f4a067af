//! The worked rows as they are read: a row's words, files and input, the expected observations of its runs, and the
//! failures injected into its runs. The program `rows` runs them.
//!
//! Uses files and the versions in memory of m_ports. Knows nothing of commands, so that it is proved without what the
//! programs call.
//!
//! A row is a folder of `rows/` with these files, each optional: `words` has the words, separated by blanks (default
//! `run l.txt - - h.csv`), `typed` the input (empty), `text` the printed text (empty) and `status` the exit status
//! (0). `tried` has the names of the fetched files, in order, separated by blanks, with a `!` after a name whose fetch
//! fails (default: not checked). `mishaps` has the failures injected into the row's runs, as `mishap.rt` specifies
//! (`none`). The files of a run are those of the folder, under their own names, and the files of `shared/` that the
//! folder doesn't have.
#![tactic(auto)]

mod folder;
mod mishap;
mod row;

pub use folder::{read_row, row_names};
pub use mishap::{Mishap, Mishaps};
pub use row::{File, Row};
