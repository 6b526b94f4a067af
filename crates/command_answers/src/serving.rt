//! A session: reads a household, and then executes the lines of the input with a program.
ghost use Rattle.std.specs.Prelude.{◌≡◌, Err, IfOk, length};
ghost use Rattle.m_places.specs.Refusals.{Outcome};
ghost use Rattle.m_places.specs.SourceLimits.{SourceKeepsLimits};
ghost use Rattle.flat_code.specs.Runs.{flat_run};
ghost use Rattle.observables.specs.Inputs.{AreValuesOf};
ghost use Rattle.household.specs.Household.{household_of};
ghost use Rattle.household.specs.declared.fault.HouseholdFault.TheVariants.{Memory};
ghost use Rattle.m_names.specs.Names.{AreDistinct};
ghost use Rattle.m_symbols.specs.Declarations.{inputs_from, names_of, owners_from};
ghost use Rattle.m_symbols.specs.Placed.{IsPlaced};
ghost use Rattle.micro_m.specs.Bases.{IsValidBase};
ghost use Rattle.rule_order.specs.Orders.{IsOrder};
ghost use Rattle.household_session.specs.Repliers.{ended_of, whole_of};
ghost use Rattle.why_session.specs.Joined.{explains_by, joined_replies};
ghost use Rattle.m_compile.specs.Compiled.{IsRunnable};
ghost use Rattle.command_plans.specs.Views.{input_view, output_view};
ghost use Rattle.code_answers.specs.Shown.{Shows};
ghost use Rattle.code_answers.specs.Schemes.{Scheme};
ghost use Rattle.command_answers.specs.Serves.{IsServed};
ghost use Rattle.command_answers.specs.Serving.{Served};
ghost use Rattle.command_answers.specs.inner.Answers.{IsBegun, IsExplainerOf, IsServedBy};

use crate::session::serve_session;
use code_answers::{household_entry, read_given, report_refusal};
use command_plans::Status;
use household::HouseholdFault;
use household_session::Session;
use m_compile::{Program, compile_with_rules};
use m_places::Source;
use m_ports::{Sink, Source as Input};
use rule_answers::report_source;
use rule_base::RuleBase;
use std::alloc::Global;
use std::thread::Threads;
use why_session::Explainer;

/// Compiles a source, without register code, and keeps its rules, reads the household of these bytes, and then executes the lines of the input
/// to its end. If the source or the household is rejected, or memory runs out, nothing is read from the input. No
/// memory is taken after the first read. The source's bytes are given back once it is compiled: a session needs none.
pub fn serve_source<R: Threads + Sync, S: Input, K: Sink>(
    rt: &R,
    alloc: Global,
    source: Source,
    household: &[u8],
    input: &mut S,
    out: &mut K,
) -> Status
    requires { SourceKeepsLimits source }
    ensures { IsServed source household.now (input_view S.left S.faults input.old) (input_view S.left S.faults input.new)
        (output_view K.written K.faults out.old) (output_view K.written K.faults out.new) result }
{
    match compile_with_rules(rt, alloc, &source) {
        Ok((made, program)) => {
            drop(source);
            answer_serve(alloc, program, made, household, input, out)
        }
        Err(fault) => {
            let status = report_source(&source, fault, out);
            drop(source);
            status
        }
    }
}

// Executes the lines of the input in a session that starts with the household of these bytes and explains values by
// the base of the program's rules.
fn answer_serve<S: Input, K: Sink>(
    alloc: Global,
    program: Program,
    made: RuleBase,
    household: &[u8],
    input: &mut S,
    out: &mut K,
) -> Status
    requires runnable { IsRunnable program.face program.tidy }
    requires valid { IsValidBase made.ordered.base }
    requires order { IsOrder made.ordered.base made.ordered.sequence }
    requires placed { IsPlaced made.symbols }
    requires distinct { AreDistinct (names_of made.symbols.variables) }
    requires cells { made.ordered.base.cells ≡ length (owners_from 0 made.symbols.variables) }
    requires many { length program.face.inputs ≡ length (inputs_from 0 made.symbols.variables) }
    ensures { (scheme : Scheme) → Shows scheme program.face (flat_run program.tidy)
        → IsServedBy scheme (explains_by made.symbols made.ordered) household.now (input_view S.left S.faults input.old) (input_view S.left S.faults input.new)
        (output_view K.written K.faults out.old) (output_view K.written K.faults out.new) result }
{
    match explainer_of(alloc, program, made, household) {
        Ok(explainer) => serve_explained(explainer, input, out),
        Err(fault) => report_refusal(out, household_entry(fault)),
    }
}

// Executes the lines of the input in a session, and drops the session: if an arm of the caller dropped it, the
// caller's borrow check would take a minute.
fn serve_explained<S: Input, K: Sink>(explainer: Explainer, input: &mut S, out: &mut K) -> Status
    ensures { Served (whole_of (joined_replies explainer)) (ended_of (joined_replies explainer))
        (input_view S.left S.faults input.old) (input_view S.left S.faults input.new)
        (output_view K.written K.faults out.old) (output_view K.written K.faults out.new) result }
{
    let mut explainer = explainer;
    let status = serve_session(&mut explainer, input, out);
    drop(explainer);
    status
}

// The session of a program, with a reporter of the base, that starts with a household, or the household's fault.
fn explainer_of(
    alloc: Global,
    program: Program,
    made: RuleBase,
    household: &[u8],
) -> Result<Explainer, HouseholdFault>
    requires runnable { IsRunnable program.face program.tidy }
    requires valid { IsValidBase made.ordered.base }
    requires order { IsOrder made.ordered.base made.ordered.sequence }
    requires placed { IsPlaced made.symbols }
    requires distinct { AreDistinct (names_of made.symbols.variables) }
    requires cells { made.ordered.base.cells ≡ length (owners_from 0 made.symbols.variables) }
    requires many { length program.face.inputs ≡ length (inputs_from 0 made.symbols.variables) }
    ensures { Outcome Memory result (IsExplainerOf program made.symbols made.ordered household.now)
        (λ fault. household_of program.face.inputs household.now ≡ Err fault) }
{
    match session_of(alloc, program, household) {
        Ok(session) => {
            let RuleBase { symbols, ordered } = made;
            Ok(Explainer::new(alloc, session, ordered, symbols)?)
        }
        Err(fault) => {
            drop(made);
            Err(fault)
        }
    }
}

// The session of a program that starts with a household, or the household's fault.
fn session_of(alloc: Global, program: Program, household: &[u8]) -> Result<Session, HouseholdFault>
    requires { IsRunnable program.face program.tidy }
    ensures outcome { Outcome Memory result (λ session. IsBegun program household.now session.sitting)
        (λ fault. household_of program.face.inputs household.now ≡ Err fault) }
    ensures values { IfOk result (λ session. AreValuesOf program.face.inputs session.sitting.values) }
{
    let count = program.tidy.flat().inputs;
    let inputs = program.face.inputs.as_slice();
    let (codes, given) = read_given(alloc, inputs, count, household)?;
    let Program { face, tidy } = program;
    Ok(Session::start(alloc, tidy, face, codes, &given)?)
}
