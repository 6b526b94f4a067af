//! A lint: findings about the rules of a source and its program.
ghost use Rattle.std.specs.Prelude.{◌≡◌, ◌<◌, ◌^◌, length, map, take};
ghost use Rattle.m_places.specs.SourceLimits.{SourceKeepsLimits};
ghost use Rattle.m_symbols.specs.Declarations.{inputs_from, owners_from};
ghost use Rattle.micro_m.specs.Bases.{IsValidBase};
ghost use Rattle.flat_code.specs.Faces.{IsFaceOf};
ghost use Rattle.observables.specs.declared.face.FaceLabel.TheVariants.{Verif};
ghost use Rattle.command_plans.specs.Printing.{IsAnswered};
ghost use Rattle.command_plans.specs.Views.{output_view};
ghost use Rattle.rule_answers.specs.Lints.{LintReplies};
ghost use Rattle.rule_answers.specs.inner.Linting.{IsLintOf};

use crate::entries::report_source;
use crate::findings::give_findings;
use command_plans::{Status, printed};
use m_compile::{Program, compile_with_rules};
use m_lint::lint;
use m_places::Source;
use m_ports::Sink;
use rule_base::RuleBase;
use std::alloc::{AllocError, Global};
use std::thread::Threads;

/// Compiles a source and keeps its rules, and prints the findings about the two, or the line of the source's fault.
pub fn lint_source<R: Threads + Sync, K: Sink>(
    rt: &R,
    alloc: Global,
    source: &Source,
    out: &mut K,
) -> Status
    requires { SourceKeepsLimits source.now }
    ensures { IsAnswered (LintReplies source.now) (output_view K.written K.faults out.old) (output_view K.written K.faults out.new) result }
{
    match compile_with_rules(rt, alloc, source) {
        Ok((made, program)) => {
            let status = answer_lint(alloc, &made, &program, out);
            drop(made);
            drop(program);
            status
        }
        Err(fault) => report_source(source, fault, out),
    }
}

// Prints the findings about a base and its program.
fn answer_lint<K: Sink>(alloc: Global, made: &RuleBase, program: &Program, out: &mut K) -> Status
    requires valid { IsValidBase made.now.ordered.base }
    requires cells { made.now.ordered.base.cells ≡ length (owners_from 0 made.now.symbols.variables) }
    requires few { length made.now.ordered.base.checks < 2 ^ 32 }
    requires shown { IsFaceOf program.now.face program.now.tidy }
    requires first_labels { take (length made.now.ordered.base.labels) program.now.face.labels ≡ map Verif made.now.ordered.base.labels }
    requires inputs { program.now.tidy.inputs ≡ length (inputs_from 0 made.now.symbols.variables) }
    ensures { IsAnswered (IsLintOf made.now.symbols made.now.ordered.base program.now)
        (output_view K.written K.faults out.old) (output_view K.written K.faults out.new) result }
{
    match lint(
        alloc,
        &made.ordered.base,
        &made.symbols,
        &program.tidy,
        &program.face,
    ) {
        Ok(findings) => printed(give_findings(made, findings.as_slice(), out), Status::Done),
        Err(AllocError) => Status::Memory,
    }
}
