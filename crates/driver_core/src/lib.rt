//! Drivers over numbered cells: terms, commands and functions, their semantics, the cells of each
//! kind of inputs, and the weight of a driver, which bounds its compiled size.
//!
//! Uses the meaning of a base, the declarations and the observations of a run. Knows nothing of
//! source text, of how names resolve, nor of flat programs.
//!
//! The semantics has no nodes and no guards: a command maps an environment to an environment, or
//! stops the run.
#![tactic(auto)]

mod command;
mod kind_cells;
mod kind_index;
mod program;
mod term;
mod weigh_base;
mod weigh_blocks;
mod weigh_calls;
mod weigh_driver;
mod weigh_levels;
mod weight_table;

pub use command::{CCommand, CCommandNode};
pub use kind_cells::KindCells;
pub use kind_index::KindIndex;
pub use program::Core;
pub use term::{CLeaf, CTerm};
pub use weigh_driver::weight;
