//! Laws of the definitions: bytes are one driver or have one error, and not both.

ghost use Rattle.std.specs.Prelude.{◌≡◌, ℕ, List};
ghost use Rattle.mpp_lexer.specs.declared.fault.DriverFault.{DriverFault};
ghost use Rattle.mpp_lexer.specs.declared.piece.Line.{Line};
ghost use Rattle.mpp_parser.specs.declared.command.Driver.{Driver};
ghost use Rattle.mpp_parser.specs.Drivers.{SpellsDriver, IsLongest};
ghost use Rattle.mpp_parser.specs.Faults.{IsDriver, IsFault};

/// The longest prefix of the lines that is a driver is one driver only.
pub fn one_longest_driver()
    ensures { (ls rest : List Line) (d e : Driver) →
        SpellsDriver d ls rest → SpellsDriver e ls rest → IsLongest ls rest → d ≡ e }
{}

/// Bytes parse to at most one driver.
pub fn one_driver()
    ensures { (bytes : List ℕ) (d e : Driver) → IsDriver bytes d → IsDriver bytes e → d ≡ e }
{}

/// Bytes that parse have no error.
pub fn no_driver_and_fault()
    ensures { (bytes : List ℕ) (d : Driver) (fault : DriverFault) → IsDriver bytes d → IsFault bytes fault → ⊥ }
{}

/// Bytes have at most one error.
pub fn one_fault()
    ensures { (bytes : List ℕ) (fault other : DriverFault) → IsFault bytes fault → IsFault bytes other → fault ≡ other }
{}
