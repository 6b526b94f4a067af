//! Runs code on many households, the rows of a table, or on one.
//!
//! Uses `reg_machine` for code, `household` for rows, and `workers`: rows are divided among
//! threads, and each thread executes an instruction for all rows of a block before the next
//! instruction. Knows nothing of the syntax of tables or of how an answer is printed.
//!
//! A block has 64 rows, stored by columns; a row that stopped is computed on with the others, and
//! its first stop is kept (`AreRun`). Only inputs that some row has are stored (`Places`). A window
//! has up to 8,192 rows (`window_size`), in as many parts as there are processors. Each worker
//! prints into a text of fixed capacity; a part that doesn't fit is printed again by the first
//! thread (`give_part`).
#![tactic(auto)]

mod batch;
mod blocks;
mod check;
mod chunk;
mod columns;
mod each;
mod fault;
mod one;
mod places;
mod print;
mod printer;
mod room;
mod rows;
mod step;
mod texts;

pub use batch::run_batch;
pub use fault::PrintFault;
pub use one::run_household;
pub use print::print_batch;
pub use printer::RowPrinter;
