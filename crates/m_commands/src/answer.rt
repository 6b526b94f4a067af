//! The answer of a command to what it gathered, printed as it is made.
ghost use Rattle.command_plans.specs.Views.{input_view, output_view};
ghost use Rattle.m_commands.specs.Answer.{WorkKeepsLimits};
ghost use Rattle.m_commands.specs.inner.Courses.{WorkIsAnswered};

use crate::work::Work;
use code_answers::exec_code;
use command_answers::{
    batch_source, cases_source, compile_source, run_large, run_source, serve_source,
};
use command_plans::Status;
use m_ports::{Sink, Source};
use rule_answers::{check_source, lint_source};
use std::alloc::Global;
use std::thread::Threads;

/// Answers what was gathered, and gives the status. A session takes its source, and drops it before it reads a line.
pub fn answer<R: Threads + Sync, S: Source, K: Sink>(
    rt: &R,
    alloc: Global,
    work: Work,
    input: &mut S,
    out: &mut K,
) -> Status
    requires { WorkKeepsLimits work }
    ensures { WorkIsAnswered work (input_view S.left S.faults input.old) (input_view S.left S.faults input.new)
        (output_view K.written K.faults out.old) (output_view K.written K.faults out.new) result }
{
    match work {
        Work::Run(source, rows) => run_source(rt, alloc, &source, rows.as_slice(), out),
        Work::Serve(source, rows) => serve_source(rt, alloc, source, rows.as_slice(), input, out),
        Work::Batch(source, table) => batch_source(rt, alloc, &source, table.as_slice(), out),
        Work::Cases(source, table) => cases_source(rt, alloc, &source, table.as_slice(), out),
        Work::Large(n) => run_large(rt, alloc, n, out),
        Work::Compile(source) => compile_source(rt, alloc, &source, out),
        Work::Exec(code, rows) => exec_code(alloc, code.as_slice(), rows.as_slice(), out),
        Work::Lint(source) => lint_source(rt, alloc, &source, out),
        Work::Check(source, rows, report) => {
            check_source(rt, alloc, &source, rows.as_slice(), report.as_slice(), out)
        }
    }
}
