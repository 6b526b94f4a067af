//! Laws of the definitions: a driver resolves to one driver over cells or has one error, and not
//! both; and receiving a cell twice is receiving it once.
ghost use Rattle.std.specs.Prelude.{◌≡◌, ◌<◌, ◌≤◌, ℕ, List, All, length};
ghost use Rattle.m_symbols.specs.Declarations.{Declared};
ghost use Rattle.mpp_parser.specs.declared.command.Driver.{Driver};
ghost use Rattle.driver_core.specs.declared.program.Core.{Core};
ghost use Rattle.mpp_core.specs.Cores.{IsCore, IsCoreFault, AreOneCoreFault};
ghost use Rattle.mpp_core.specs.declared.fault.CoreFault.{CoreFault};
ghost use Rattle.mpp_core.specs.Names.{each_once};
ghost use Rattle.micro_m.specs.Values.{Environment};
ghost use Rattle.driver_core.specs.Meaning.{Env, with_values};

/// With given declarations a driver resolves in at most one way.
pub fn one_core()
    ensures { (driver : Driver) (declared : Declared) (core other : Core) → IsCore driver declared core → IsCore driver declared other → core ≡ other }
{}

/// A driver that resolves has no error.
pub fn no_core_and_fault()
    ensures { (driver : Driver) (declared : Declared) (core : Core) (fault : CoreFault) → IsCore driver declared core → IsCoreFault driver declared fault → ⊥ }
{}

/// A driver has at most one error, up to the choice of the reported cycle.
pub fn one_fault()
    ensures { (driver : Driver) (declared : Declared) (fault other : CoreFault) →
        IsCoreFault driver declared fault → IsCoreFault driver declared other → AreOneCoreFault fault other }
{}

/// Receiving cells has the same effect if each is listed once, in ascending order.
pub fn received_once()
    ensures { (cells : List ℕ) (values : Environment) (env : Env) → with_values (each_once cells) values env ≡ with_values cells values env }
{}

/// Distinct cells are at most as many as all cells.
pub fn received_few()
    ensures { (cells : List ℕ) (all : ℕ) → All (λ c. c < all) cells → length (each_once cells) ≤ all }
{}
