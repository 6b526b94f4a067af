//! Replies to lines without `why`. The function does nothing: its contract is the law.

ghost use Rattle.std.specs.Prelude.{◌≡◌, List, ℕ, None};
ghost use Rattle.std.specs.List.{AllByRecursion};
ghost use Rattle.m_fixed.specs.declared.amount.Value.{Value};
ghost use Rattle.household_session.specs.Replies.{lines_replies};
ghost use Rattle.household_session.specs.Sessions.{Showing};
ghost use Rattle.why_session.specs.Explains.{Explaining, explained_replies, why_name};

/// If no line is a `why`, the replies are those of a session without reports.
pub fn replies_without_why()
    ensures { (showing : Showing) (explains : Explaining) (values : List Value) (lines : List (List ℕ)) → AllByRecursion (λ line. why_name line ≡ None) lines
        → explained_replies showing explains values lines ≡ lines_replies showing values lines }
{}
