//! A law of register code. The function does nothing; its contract is the law.
ghost use Rattle.std.specs.Prelude.{◌≡◌, List, Some};
ghost use Rattle.m_fixed.specs.declared.amount.Value.{Value};
ghost use Rattle.flat_code.specs.declared.program.Flat.{Flat};
ghost use Rattle.flat_code.specs.Runs.{flat_run};
ghost use Rattle.reg_machine.specs.Flow.{Listing, flow_of};
ghost use Rattle.reg_machine.specs.Machine.{machine_run};

/// Code has the same answer as the flat program that it denotes, for all inputs.
pub fn code_runs_its_program()
    ensures { (code : Listing) (flat : Flat) (inputs : List Value) → flow_of code ≡ Some flat → machine_run code inputs ≡ flat_run flat inputs }
{}
