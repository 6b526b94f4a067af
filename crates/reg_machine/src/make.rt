//! Makes code from a list of instructions.
ghost use Rattle.std.specs.Prelude.{◌≡◌, ◌<◌, length, Some, None};
ghost use Rattle.m_places.specs.Refusals.{Outcome};
ghost use Rattle.reg_machine.specs.Flow.{code_fault, code_of, placed};

use crate::builder::CodeBuilder;
use crate::code::Code;
use crate::instr::Instr;
use crate::wrong::{CodeWrong, Wrong};
use std::alloc::Global;

// An error with its place.
fn placed(place: u32, wrong: Wrong) -> CodeWrong
    ensures { result ≡ placed place wrong }
{
    match wrong {
        Wrong::Number => CodeWrong::BadNumber(place),
        Wrong::Order => CodeWrong::BadOrder(place),
    }
}

/// The code of these instructions, with these counts, or the error of the first wrong one. Takes
/// memory for what the instructions use, not for the counts. `make_code(alloc, 1, 0, 0, 1, instrs)`
/// of `Take(0, 0)` and `Output(0, 0)` is the code whose output is its input; without the first
/// instruction the error is `BadOrder(0)`, without the second `NoOutput`.
pub fn make_code(
    alloc: Global,
    inputs: u32,
    slots: u32,
    labels: u32,
    outputs: u32,
    instrs: &[Instr],
) -> Result<Code, CodeWrong>
    requires { length instrs.now < 4294967296 }
    ensures { Outcome CodeWrong.Memory result
        (λ code. (code ≡ code_of inputs slots labels outputs instrs.now) × (code_fault code ≡ None))
        (λ wrong. code_fault (code_of inputs slots labels outputs instrs.now) ≡ Some wrong) }
{
    let mut code = CodeBuilder::new(alloc, inputs, slots, labels, outputs);
    for (place, instr) in instrs.iter().enumerate() {
        match code.push(*instr)? {
            Some(wrong) => return Err(placed(place as u32, wrong)),
            None => {}
        }
    }
    match code.finish() {
        Some(code) => Ok(code),
        None => Err(CodeWrong::NoOutput),
    }
}
