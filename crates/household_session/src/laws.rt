//! Laws of replies, line by line, and of the values of a session. The functions do nothing: their
//! contracts are the laws.
ghost use Rattle.std.specs.Prelude.{◌≡◌, ◌<◌, ℕ, List, [], ◌∷◌, ◌++◌, length};
ghost use Rattle.m_text.specs.Bytes.{line_feed};
ghost use Rattle.observables.specs.Inputs.{AreValuesOf};
ghost use Rattle.household_session.specs.Sessions.{Sitting};
ghost use Rattle.household_session.specs.Replies.{IsUnended, after_line, replies_of, reply_of};

/// The replies to an input are the reply to its first line, followed by the replies to the rest
/// from the session after that line. A last line without a line feed is replied to like any other,
/// and an empty input has no reply.
pub fn line_by_line()
    ensures none { (sitting : Sitting) → replies_of sitting [] ≡ [] }
    ensures more { (sitting : Sitting) (first rest : List ℕ) → IsUnended first →
        replies_of sitting (first ++ line_feed ∷ rest) ≡ reply_of sitting first ++ replies_of (after_line sitting first) rest }
    ensures last { (sitting : Sitting) (first : List ℕ) → IsUnended first → 0 < length first → replies_of sitting first ≡ reply_of sitting first }
{}

/// If a session has for each input a value that it may have, it has such values after each line: an
/// amount that isn't of its input's type is rejected.
pub fn values_stay()
    ensures { (sitting : Sitting) (first : List ℕ) → AreValuesOf sitting.face.inputs sitting.values →
        AreValuesOf (after_line sitting first).face.inputs (after_line sitting first).values }
{}
