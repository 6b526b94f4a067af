//! Parses a driver from bytes.
ghost use Rattle.std.specs.Prelude.{◌≤◌, [], length};
ghost use Rattle.m_places.specs.Refusals.{Outcome};
ghost use Rattle.m_places.specs.declared.limits.TheConstants.{FILE_BYTES};
ghost use Rattle.mpp_lexer.specs.declared.fault.DriverFault.TheVariants.{Memory};
ghost use Rattle.mpp_parser.specs.Depths.{Shallow};
ghost use Rattle.mpp_parser.specs.Drivers.{SpellsDriver};
ghost use Rattle.mpp_parser.specs.Faults.{IsDriver, IsFault, IsLineFault};

use crate::blocks::{LineCursor, read_functions};
use crate::command::Driver;
use crate::depth::first_too_deep;
use m_places::Seq;
use mpp_lexer::{DriverFault, Line, lex_driver};
use std::alloc::Global;

/// The driver that the bytes parse to, or the first error.
///
/// `main():\n  IRN <- call_m()\n` is a driver of one function with one command. `main():` alone is
/// rejected as `DriverSyntax(1)`, since a function has at least one command, and so is
/// `main():\n  IRN <-1\n`. After `main():\n  IRN = 1\n` the line `  IRN <-1` is rejected as
/// `DriverSyntax(3)`.
pub fn parse_driver(alloc: Global, bytes: &[u8]) -> Result<Driver, DriverFault>
    requires { length bytes.now ≤ FILE_BYTES }
    ensures outcome { Outcome Memory result (IsDriver bytes.now) (IsFault bytes.now) }
{
    let lines = lex_driver(alloc, bytes)?;
    read_driver(alloc, lines.as_slice())
}

// The driver that the lines parse to.
fn read_driver(alloc: Global, lines: &[Line]) -> Result<Driver, DriverFault>
    ensures outcome { Outcome Memory result
        (λ driver. Shallow [] lines.now × SpellsDriver driver lines.now [])
        (IsLineFault lines.now) }
{
    if let Some(number) = first_too_deep(alloc, lines)? {
        return Err(DriverFault::DriverTooDeep(number));
    }
    let mut left = LineCursor::new(lines);
    let functions = read_functions(alloc, &mut left)?;
    match left.first() {
        None => Ok(Driver {
            functions: Seq::from_vec(functions),
        }),
        Some(line) => Err(DriverFault::DriverSyntax(line.number)),
    }
}
