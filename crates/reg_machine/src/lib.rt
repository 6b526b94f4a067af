//! Register code, and the machine that runs it: instructions on sixteen registers and on spill
//! slots, which denote a flat program.
//!
//! Uses `flat_code` for programs. Knows nothing of rules, files or printed lines, nor how code is
//! made from a program.
//!
//! One definition (`specs/Flow.antt`) gives both the errors of code and the flat program that it
//! denotes.
#![tactic(auto)]

mod builder;
mod cells;
mod code;
mod instr;
mod laws;
mod machine;
mod make;
mod used;
mod wrong;

pub use builder::CodeBuilder;
pub use code::{Code, Packed, Parts};
pub use instr::{Instr, REGISTERS};
pub use laws::code_runs_its_program;
pub use machine::Machine;
pub use make::make_code;
pub use wrong::{CodeWrong, Wrong};
