//! Laws that relate the commands to each other.
ghost use Rattle.std.specs.Prelude.{◌≡◌, ℕ, List, Option};
ghost use Rattle.command_plans.specs.declared.status.Status.{Status};
ghost use Rattle.command_plans.specs.declared.status.Status.TheVariants.{Done};
ghost use Rattle.command_answers.specs.Compiles.{CompileReplies};
ghost use Rattle.code_answers.specs.Execs.{ExecHasAnswer, ExecReplies};
ghost use Rattle.command_answers.specs.Runs.{RunHasAnswer, RunReplies};
ghost use Rattle.m_places.specs.declared.source.Source.{Source};
ghost use Rattle.std.specs.List.{AllByRecursion};
ghost use Rattle.m_symbols.specs.Declarations.{Declared};
ghost use Rattle.micro_m.specs.declared.base.Base.{Base};
ghost use Rattle.driver_core.specs.declared.program.Core.{Core};
ghost use Rattle.m_lint.specs.Lines.{findings_text};
ghost use Rattle.m_lint.specs.Truths.{IsTrueFinding};
ghost use Rattle.m_lint.specs.declared.finding.Finding.{Finding};
ghost use Rattle.m_compile.specs.Answers.{answer_to};
ghost use Rattle.driver_core.specs.Inputs.{inputs_declared};
ghost use Rattle.m_compile.specs.Sources.{IsValid};
ghost use Rattle.rule_answers.specs.Lints.{LintReplies};

/// `exec` on the code file that `compile` writes for a source answers each household as `run` does on the source: the
/// two can print the same texts with the same statuses. So `exec` accepts that code file, and has an answer where
/// `run` has one.
pub fn executed_as_run()
    ensures same { (source : Source) (code rows text : List ℕ) (status : Status) → CompileReplies source code Done →
        (ExecReplies code rows text status → RunReplies source rows text status) × (RunReplies source rows text status → ExecReplies code rows text status) }
    ensures answered { (source : Source) (code rows : List ℕ) → CompileReplies source code Done → RunHasAnswer source rows → ExecHasAnswer code rows }
{}

/// What `lint` prints for a valid source are the lines of findings that are true of its rules and of its observations,
/// for all households with amounts of the inputs' types.
pub fn linted_truly()
    ensures { (source : Source) (text : List ℕ) (status : Status) (declared : Declared) (base : Base) (written : Option Core) (requests : List ℕ) →
        IsValid source declared base written requests → LintReplies source text status →
        (findings : List Finding) × (text ≡ findings_text declared base findings) ×
        AllByRecursion (IsTrueFinding declared base (inputs_declared declared) (answer_to declared base written requests)) findings }
{}
