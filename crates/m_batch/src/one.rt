//! Runs one household.
ghost use Rattle.std.specs.Prelude.{◌≡◌, ◌<◌, IfOk, length};
ghost use Rattle.std.specs.List.{AllByRecursion};
ghost use Rattle.household.specs.Household.{inputs_of, values_of};
ghost use Rattle.reg_machine.specs.Machine.{machine_run};

use household::{Household, values};
use m_fixed::Value;
use m_places::Seq;
use observables::Answer;
use reg_machine::{Code, Machine};
use std::alloc::{AllocError, Global};

/// The answer of code to a household: its run on the household's amounts, with the other inputs
/// undefined. Its only error is running out of memory.
///
/// For code whose output is its input 0, a household with the amount 5 has the answer 5.
pub fn run_household(
    alloc: Global,
    code: &Code,
    household: &Household,
) -> Result<Answer, AllocError>
    requires { AllByRecursion (λ input. input < code.now.counts.inputs) (inputs_of household.now.pairs) }
    ensures { IfOk result (λ answer. answer ≡ machine_run code.now (values_of household.now.pairs code.now.counts.inputs)) }
{
    let mut machine = Machine::new(alloc, code)?;
    let inputs = values(alloc, household, code.inputs())?;
    answer_to(alloc, code, &mut machine, &inputs)
}

/// The answer of code to these inputs, from a new machine.
pub(crate) fn answer_to<'a>(
    alloc: Global,
    code: &Code,
    machine: &mut Machine<'a>,
    inputs: &[Value],
) -> Result<Answer, AllocError>
    requires same { machine.old.code ≡ code.now }
    requires inputs { length inputs.now ≡ code.now.counts.inputs }
    ensures answer { IfOk result (λ answer. answer ≡ machine_run code.now inputs.now) }
    ensures same { machine.new.code ≡ code.now }
{
    match machine.run(inputs) {
        Some(stop) => Ok(Answer::Stopped(stop)),
        None => Ok(Answer::Values(outputs_of(alloc, code, machine)?)),
    }
}

// The outputs of a machine's last run.
fn outputs_of<'a>(
    alloc: Global,
    code: &Code,
    machine: &Machine<'a>,
) -> Result<Seq<Value>, AllocError>
    requires same { machine.now.code ≡ code.now }
    requires all { length machine.now.outputs ≡ code.now.counts.outputs }
    ensures { IfOk result (λ outputs. outputs ≡ machine.now.outputs) }
{
    let mut outputs = Vec::with_capacity(alloc, code.outputs() as usize)?;
    for k in 0..code.outputs() {
        outputs.push(machine.output(k))?;
    }
    Ok(Seq::from_vec(outputs))
}
