//! A check: whether a report is a sound derivation over the rules of a source and a household.
ghost use Rattle.std.specs.Prelude.{◌≡◌, ◌<◌, ◌≤◌, All, Err, IfOk, IfSome, length};
ghost use Rattle.m_names.specs.Names.{AreDistinct};
ghost use Rattle.m_places.specs.Refusals.{Outcome};
ghost use Rattle.m_places.specs.declared.limits.TheConstants.{CELLS, CODE_FILE_BYTES};
ghost use Rattle.m_places.specs.SourceLimits.{SourceKeepsLimits};
ghost use Rattle.household.specs.Household.{AreInputs, household_of, values_of};
ghost use Rattle.household.specs.declared.fault.HouseholdFault.TheVariants.{Memory};
ghost use Rattle.observables.specs.Inputs.{codes_of};
ghost use Rattle.m_symbols.specs.Declarations.{owners_from};
ghost use Rattle.m_symbols.specs.Placed.{IsPlaced};
ghost use Rattle.micro_m.specs.Bases.{IsValidBase};
ghost use Rattle.micro_m.specs.Values.{environment};
ghost use Rattle.driver_core.specs.Answers.{start_of};
ghost use Rattle.driver_core.specs.Inputs.{inputs_declared};
ghost use Rattle.command_plans.specs.Printing.{IsAnswered, Prints};
ghost use Rattle.command_plans.specs.Views.{output_view};
ghost use Rattle.rule_answers.specs.Checks.{CheckReplies, ReportReplies};
ghost use Rattle.rule_answers.specs.inner.Checking.{IsStart, LinesReplies, SaidReplies, found_status, found_text};

use crate::entries::{report_entry, report_source};
use crate::start::first_cells;
use code_answers::{household_entry, read_given, report_refusal};
use command_plans::{Status, print_fault, printed};
use household::{Household, HouseholdFault, values};
use m_compile::{compile_base, inputs_of};
use m_fixed::Value;
use m_places::Source;
use m_ports::{Sink, give_pieces};
use m_symbols::Symbols;
use micro_m::Base;
use observables::Coded;
use rule_base::RuleBase;
use std::alloc::{AllocError, Global};
use std::thread::Threads;
use tax_print::Fault;
use why_report::{ReportLine, first_unsound, read_report};

/// Makes the base of the rules of a source, and prints whether the report of these bytes is a sound derivation over
/// the household of these bytes, or the line of the first fault of the three. The source's driver and requests aren't
/// used.
pub fn check_source<R: Threads + Sync, K: Sink>(
    rt: &R,
    alloc: Global,
    source: &Source,
    household: &[u8],
    report: &[u8],
    out: &mut K,
) -> Status
    requires limits { SourceKeepsLimits source.now }
    requires report { length report.now ≤ CODE_FILE_BYTES }
    ensures { IsAnswered (CheckReplies source.now household.now report.now)
        (output_view K.written K.faults out.old) (output_view K.written K.faults out.new) result }
{
    match compile_base(
        rt,
        alloc,
        source.texts.as_slice(),
        source.application.bytes(),
    ) {
        Ok(made) => {
            let status = answer_check(alloc, &made, household, report, out);
            drop(made);
            status
        }
        Err(fault) => report_source(source, fault, out),
    }
}

// The answer over the base.
fn answer_check<K: Sink>(
    alloc: Global,
    made: &RuleBase,
    household: &[u8],
    report: &[u8],
    out: &mut K,
) -> Status
    requires report { length report.now ≤ CODE_FILE_BYTES }
    requires valid { IsValidBase made.now.ordered.base }
    requires placed { IsPlaced made.now.symbols }
    requires cells { made.now.ordered.base.cells ≡ length (owners_from 0 made.now.symbols.variables) }
    requires few { made.now.ordered.base.cells ≤ CELLS }
    requires distinct { AreDistinct (codes_of (inputs_declared made.now.symbols)) }
    ensures { IsAnswered (ReportReplies made.now.symbols made.now.ordered.base household.now report.now)
        (output_view K.written K.faults out.old) (output_view K.written K.faults out.new) result }
{
    match start_cells(alloc, &made.symbols, household) {
        Ok(env) => answer_report(alloc, made, env.as_slice(), report, out),
        Err(fault) => report_refusal(out, household_entry(fault)),
    }
}

// The values that cells start with for the household of these bytes, or its fault.
fn start_cells(
    alloc: Global,
    symbols: &Symbols,
    household: &[u8],
) -> Result<Vec<Value>, HouseholdFault>
    requires { AreDistinct (codes_of (inputs_declared symbols.now)) }
    ensures { Outcome Memory result (λ env. IsStart symbols.now household.now env.items)
        (λ fault. household_of (inputs_declared symbols.now) household.now ≡ Err fault) }
{
    let stated = inputs_of(alloc, symbols)?;
    report_cells(alloc, symbols, stated.as_slice(), household)
}

// The same, for these inputs.
fn report_cells(
    alloc: Global,
    symbols: &Symbols,
    stated: &[Coded],
    household: &[u8],
) -> Result<Vec<Value>, HouseholdFault>
    requires distinct { AreDistinct (codes_of stated.now) }
    requires stated { stated.now ≡ inputs_declared symbols.now }
    ensures { Outcome Memory result (λ env. IsStart symbols.now household.now env.items)
        (λ fault. household_of (inputs_declared symbols.now) household.now ≡ Err fault) }
{
    let (codes, given) = read_given(alloc, stated, symbols.inputs(), household)?;
    Ok(given_cells(alloc, symbols, &given, codes.len())?)
}

// The values that cells start with for a household; `count` is the number of the inputs.
fn given_cells(
    alloc: Global,
    symbols: &Symbols,
    given: &Household,
    count: u32,
) -> Result<Vec<Value>, AllocError>
    requires { AreInputs count given.now.pairs }
    ensures { IfOk result (λ env. env.items ≡ start_of symbols.now (values_of given.now.pairs count)) }
{
    let amounts = values(alloc, given, count)?;
    first_cells(alloc, symbols, &amounts)
}

// The answer over the cells' start values.
fn answer_report<K: Sink>(
    alloc: Global,
    made: &RuleBase,
    env: &[Value],
    report: &[u8],
    out: &mut K,
) -> Status
    requires report { length report.now ≤ CODE_FILE_BYTES }
    requires valid { IsValidBase made.now.ordered.base }
    requires placed { IsPlaced made.now.symbols }
    requires cells { made.now.ordered.base.cells ≡ length (owners_from 0 made.now.symbols.variables) }
    requires few { made.now.ordered.base.cells ≤ CELLS }
    requires values { length env.now ≡ made.now.ordered.base.cells }
    ensures { IsAnswered (SaidReplies made.now.symbols made.now.ordered.base (environment env.now) report.now)
        (output_view K.written K.faults out.old) (output_view K.written K.faults out.new) result }
{
    match read_report(alloc, report, &made.symbols) {
        Ok(lines) => answer_lines(alloc, &made.ordered.base, env, lines.as_slice(), out),
        Err(fault) => report_refusal(out, report_entry(fault)),
    }
}

// The answer over the report's lines.
fn answer_lines<K: Sink>(
    alloc: Global,
    base: &Base,
    env: &[Value],
    lines: &[ReportLine],
    out: &mut K,
) -> Status
    requires valid { IsValidBase base.now }
    requires values { length env.now ≡ base.now.cells }
    requires cells { All (λ line. line.cell < base.now.cells) lines.now }
    requires few { base.now.cells ≤ CELLS }
    ensures { IsAnswered (LinesReplies base.now (environment env.now) lines.now)
        (output_view K.written K.faults out.old) (output_view K.written K.faults out.new) result }
{
    match first_unsound(alloc, base, env, lines) {
        Ok(found) => report_found(found, out),
        Err(AllocError) => Status::Memory,
    }
}

// Reports the number of the first line that isn't sound, given by its position, or that there is none. Takes no
// memory.
fn report_found<K: Sink>(found: Option<u32>, out: &mut K) -> Status
    requires { IfSome found (λ position. position ≤ CELLS) }
    ensures { Prints (found_text found) (found_status found) (output_view K.written K.faults out.old) (output_view K.written K.faults out.new) result }
{
    match found {
        None => printed(give_pieces(out, &[b"sound\n"]), Status::Done),
        Some(position) => print_fault(
            out,
            Fault::AtLine(b"report", position + 1, b"not sound"),
            Status::Refused,
        ),
    }
}
