//! A run: prints the answer of code to a household.
ghost use Rattle.std.specs.Prelude.{◌≡◌, [], Ok, Err, IfOk, length};
ghost use Rattle.m_places.specs.Refusals.{Outcome};
ghost use Rattle.household.specs.Household.{AreInputs, household_of};
ghost use Rattle.household.specs.declared.fault.HouseholdFault.TheVariants.{Memory};
ghost use Rattle.reg_machine.specs.Machine.{machine_run};
ghost use Rattle.command_plans.specs.Printing.{IsAnswered};
ghost use Rattle.command_plans.specs.Views.{output_view};
ghost use Rattle.code_answers.specs.Shown.{HouseholdReplies, IsRunnableCode, Shows};
ghost use Rattle.code_answers.specs.Schemes.{Scheme};
ghost use Rattle.code_answers.specs.inner.Answers.{IsAnswerOf};

use crate::entries::{household_entry, report_refusal, status_of};
use crate::given::codes_by;
use crate::texts::{ANSWER_ROOM, give_answer};
use code_file::Loaded;
use command_plans::{Status, printed};
use household::{Household, HouseholdFault, read_household};
use m_batch::run_household;
use m_ports::{FixedText, Sink};
use observables::Answer;
use std::alloc::Global;

/// Prints the answer of code to the household of these bytes, or the line of the household's fault.
pub fn answer_run<K: Sink>(alloc: Global, loaded: &Loaded, household: &[u8], out: &mut K) -> Status
    requires { IsRunnableCode loaded.now }
    ensures { (scheme : Scheme) → Shows scheme loaded.now.face (machine_run loaded.now.code)
        → IsAnswered (HouseholdReplies [] scheme household.now) (output_view K.written K.faults out.old) (output_view K.written K.faults out.new) result }
{
    let Ok(mut held) = FixedText::new(alloc, ANSWER_ROOM) else {
        return Status::Memory;
    };
    match answer_of(alloc, loaded, household) {
        Ok(answer) => printed(
            give_answer(&loaded.face, &answer, &mut held, out),
            status_of(&answer),
        ),
        Err(fault) => report_refusal(out, household_entry(fault)),
    }
}

/// The answer of code to a household, or the household's fault.
pub(crate) fn answer_of(
    alloc: Global,
    loaded: &Loaded,
    household: &[u8],
) -> Result<Answer, HouseholdFault>
    requires { IsRunnableCode loaded.now }
    ensures { Outcome Memory result (IsAnswerOf loaded.now household.now) (λ fault. household_of loaded.now.face.inputs household.now ≡ Err fault) }
{
    let given = given(alloc, loaded, household)?;
    Ok(run_household(alloc, &loaded.code, &given)?)
}

// The household of these bytes, for the code's inputs.
fn given(alloc: Global, loaded: &Loaded, household: &[u8]) -> Result<Household, HouseholdFault>
    requires { IsRunnableCode loaded.now }
    ensures outcome { Outcome Memory result (λ given. household_of loaded.now.face.inputs household.now ≡ Ok given.pairs)
        (λ fault. household_of loaded.now.face.inputs household.now ≡ Err fault) }
    ensures inputs { IfOk result (λ given. AreInputs (length loaded.now.face.inputs) given.pairs) }
{
    let codes = codes_by(alloc, loaded)?;
    read_household(alloc, household, &codes)
}
