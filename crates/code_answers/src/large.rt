//! `large N`: prints the answer of the generated source's code to the generated household.
ghost use Rattle.std.specs.Prelude.{◌≡◌, ◌≤◌, ◌++◌};
ghost use Rattle.m_places.specs.declared.limits.TheConstants.{LARGE};
ghost use Rattle.m_ports.specs.Giving.{Gives};
ghost use Rattle.household.specs.declared.fault.HouseholdFault.TheVariants as household;
ghost use Rattle.m_large.specs.Large.{household_text};
ghost use Rattle.tax_print.specs.Lines.{AnswerIsWithin, answer_lines};
ghost use Rattle.reg_machine.specs.Machine.{machine_run};
ghost use Rattle.command_plans.specs.Printing.{IsAnswered};
ghost use Rattle.command_plans.specs.declared.status.Status.TheVariants as status;
ghost use Rattle.command_plans.specs.Views.{output_view};
ghost use Rattle.code_answers.specs.Larges.{large_line};
ghost use Rattle.code_answers.specs.Larges.{ReadsLarge};
ghost use Rattle.code_answers.specs.Shown.{HouseholdReplies, IsRunnableCode, Shows};
ghost use Rattle.code_answers.specs.Schemes.{Scheme};

use crate::entries::status_of;
use crate::run::answer_of;
use crate::texts::{ANSWER_ROOM, give_large};
use code_file::Loaded;
use command_plans::{Status, printed};
use household::HouseholdFault;
use itoa::Buffer;
use m_large::large_household;
use m_ports::{Failed, FixedText, Sink, give_pieces};
use observables::{Answer, Face};
use std::alloc::Global;
use tax_print::print_answer;

/// Prints the line `large N`, and the answer of code to the generated household, which has no fault for the code's
/// inputs.
pub fn answer_large<K: Sink>(alloc: Global, n: u32, loaded: &Loaded, out: &mut K) -> Status
    requires some { 1 ≤ n }
    requires few { n ≤ LARGE }
    requires runnable { IsRunnableCode loaded.now }
    requires reads { ReadsLarge n loaded.now.face }
    ensures { (scheme : Scheme) → Shows scheme loaded.now.face (machine_run loaded.now.code)
        → IsAnswered (HouseholdReplies (large_line n) scheme (household_text n))
        (output_view K.written K.faults out.old) (output_view K.written K.faults out.new) result }
{
    let Ok(mut held) = FixedText::new(alloc, ANSWER_ROOM) else {
        return Status::Memory;
    };
    match large_household(alloc, n) {
        Ok(household) => print_answered(alloc, n, loaded, &household, &mut held, out),
        Err(_) => Status::Memory,
    }
}

// Computes the answer to the household, and prints the line and the answer.
fn print_answered<K: Sink>(
    alloc: Global,
    n: u32,
    loaded: &Loaded,
    household: &[u8],
    held: &mut FixedText,
    out: &mut K,
) -> Status
    requires runnable { IsRunnableCode loaded.now }
    requires reads { ReadsLarge n loaded.now.face }
    requires generated { household.now ≡ household_text n }
    ensures { (scheme : Scheme) → Shows scheme loaded.now.face (machine_run loaded.now.code)
        → IsAnswered (HouseholdReplies (large_line n) scheme (household_text n))
        (output_view K.written K.faults out.old) (output_view K.written K.faults out.new) result }
{
    match answer_of(alloc, loaded, household) {
        Ok(answer) => printed(
            give_large(n, &loaded.face, &answer, held, out),
            status_of(&answer),
        ),
        Err(fault) => without_answer(fault),
    }
}

// The status if the generated household has no answer: it has no fault, so memory ran out.
fn without_answer(fault: HouseholdFault) -> Status
    requires { fault ≡ household.Memory }
    ensures { result ≡ status.Memory }
{
    match fault {
        HouseholdFault::Memory => Status::Memory,
        HouseholdFault::BadHeader
        | HouseholdFault::TooManyRows
        | HouseholdFault::BadRow(_)
        | HouseholdFault::UnknownCode(_)
        | HouseholdFault::BadAmount(_)
        | HouseholdFault::NotOfType(_)
        | HouseholdFault::CodeTwice(_) => unreachable!(),
    }
}

/// Prints the line and then an answer.
pub(crate) fn print_large<K: Sink>(
    n: u32,
    face: &Face,
    answer: &Answer,
    out: &mut K,
) -> Result<(), Failed>
    requires { AnswerIsWithin face.now answer.now }
    ensures { Gives K.written K.faults out.old out.new result (large_line n ++ answer_lines face.now answer.now) }
{
    let mut buffer = Buffer::new();
    let digits = buffer.format(n).as_bytes();
    give_pieces(out, &[b"large ", digits, b"\n"])?;
    print_answer(face, answer, out)
}
