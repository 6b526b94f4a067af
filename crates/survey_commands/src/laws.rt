//! Laws on answers. Each function does nothing: its contract is the law.
ghost use Rattle.std.specs.Prelude.{ℕ, List, Option};
ghost use Rattle.m_places.specs.declared.source.Source.{Source};
ghost use Rattle.command_plans.specs.declared.status.Status.TheVariants.{Done};
ghost use Rattle.code_answers.specs.Schemes.{Scheme};
ghost use Rattle.command_answers.specs.Sources.{IsScheme};
ghost use Rattle.survey_commands.specs.Facts.{FactsReplies};
ghost use Rattle.survey_commands.specs.FactsTruths.{AreTrueFacts};

/// What `facts` prints for a valid source and ranges without a fault is true of the source's observations: each value
/// of a household within the ranges is possible by the line of its cell; a verification whose line says that it never
/// stops a run stops none; and two households that agree on the inputs in a cell's line, and stop at nothing, have the
/// same value of that cell.
pub fn facts_are_true()
    ensures { (source : Source) (ranges : Option (List ℕ)) (scheme : Scheme) (text : List ℕ) →
        IsScheme source scheme → FactsReplies source ranges text Done → AreTrueFacts source ranges scheme text }
{}
