//! Facts about a source that hold for all households within ranges.
ghost use Rattle.std.specs.Prelude.{◌≡◌, ◌<◌, ◌^◌, length, map, take};
ghost use Rattle.m_places.specs.SourceLimits.{SourceKeepsLimits};
ghost use Rattle.micro_m.specs.Bases.{IsValidBase};
ghost use Rattle.observables.specs.declared.face.FaceLabel.TheVariants.{Verif};
ghost use Rattle.flat_code.specs.Faces.{IsFaceOf};
ghost use Rattle.m_compile.specs.Compiled.{IsRunnable};
ghost use Rattle.command_plans.specs.Printing.{IsAnswered};
ghost use Rattle.command_plans.specs.Views.{output_view};
ghost use Rattle.survey_commands.specs.Facts.{FactsReplies};
ghost use Rattle.survey_commands.specs.inner.Finding.{IsFactsBy, IsFactsOf};

use crate::found::give_found;
use crate::ranges::given_facts;
use code_answers::{records_entry, report_refusal};
use command_plans::{Status, printed};
use definedness::Fact;
use m_compile::{Program, compile_with_rules};
use m_facts::find_facts;
use m_places::{Seq, Source};
use m_ports::Sink;
use micro_m::Base;
use rule_answers::report_source;
use std::alloc::{AllocError, Global};
use std::thread::Threads;

/// Compiles a source and keeps its rules, and prints facts about the requested cells that hold for all households
/// within these ranges, or the line of the first fault of the two.
pub(crate) fn facts_source<R: Threads + Sync, K: Sink>(
    rt: &R,
    alloc: Global,
    source: &Source,
    ranges: &Option<Seq<u8>>,
    out: &mut K,
) -> Status
    requires { SourceKeepsLimits source.now }
    ensures { IsAnswered (FactsReplies source.now ranges.now) (output_view K.written K.faults out.old) (output_view K.written K.faults out.new) result }
{
    match compile_with_rules(rt, alloc, source) {
        Ok((made, program)) => {
            let status = answer_facts(alloc, &made.ordered.base, &program, ranges, out);
            drop(made);
            drop(program);
            status
        }
        Err(fault) => report_source(source, fault, out),
    }
}

// Prints the facts of a base and its program within ranges.
fn answer_facts<K: Sink>(
    alloc: Global,
    base: &Base,
    program: &Program,
    ranges: &Option<Seq<u8>>,
    out: &mut K,
) -> Status
    requires valid { IsValidBase base.now }
    requires few { length base.now.checks < 2 ^ 32 }
    requires runnable { IsRunnable program.now.face program.now.tidy }
    requires first_labels { take (length base.now.labels) program.now.face.labels ≡ map Verif base.now.labels }
    ensures { IsAnswered (IsFactsOf base.now program.now ranges.now) (output_view K.written K.faults out.old) (output_view K.written K.faults out.new) result }
{
    let inputs = program.face.inputs.as_slice();
    match given_facts(alloc, inputs, program.tidy.flat().inputs, ranges) {
        Ok(given) => {
            let status = print_found(alloc, base, program, given.as_slice(), out);
            drop(given);
            status
        }
        Err(fault) => report_refusal(out, records_entry(b"ranges", fault)),
    }
}

// Prints the facts that follow from these facts of the inputs.
fn print_found<K: Sink>(
    alloc: Global,
    base: &Base,
    program: &Program,
    given: &[Fact],
    out: &mut K,
) -> Status
    requires valid { IsValidBase base.now }
    requires few { length base.now.checks < 2 ^ 32 }
    requires shown { IsFaceOf program.now.face program.now.tidy }
    requires first_labels { take (length base.now.labels) program.now.face.labels ≡ map Verif base.now.labels }
    ensures { IsAnswered (IsFactsBy base.now program.now given.now) (output_view K.written K.faults out.old) (output_view K.written K.faults out.new) result }
{
    match find_facts(alloc, base, &program.tidy, &program.face, given) {
        Ok(found) => {
            let given = give_found(base, &program.face, &found, out);
            let status = printed(given, Status::Done);
            drop(found);
            status
        }
        Err(AllocError) => Status::Memory,
    }
}
