//! Splits lines into words.
ghost use Rattle.std.specs.Prelude.{◌≡◌, ◌≢◌, ◌⊎◌, [], ◌∷◌, MatchOption, IsTrue};
ghost use Rattle.m_text.specs.Bytes.{RunsTo, space};
ghost use Rattle.household_session.specs.Commands.{starts_word, line_words};

/// The first word of a line and the rest after it; `None` if the line has no words. Takes no
/// memory.
pub fn next_word(line: &[u8]) -> Option<(&[u8], &[u8])>
    ensures { MatchOption result (line_words line.now ≡ []) (λ r. line_words line.now ≡ r.0.now ∷ line_words r.1.now) }
{
    let line = without_spaces(line);
    if line.is_empty() {
        return None;
    }
    let end = word_end(line);
    Some((&line[..end], &line[end..]))
}

// A line without its leading spaces.
fn without_spaces(line: &[u8]) -> &[u8]
    ensures words { line_words result.now ≡ line_words line.now }
    ensures front { (result.now ≡ []) ⊎ IsTrue (starts_word result.now) }
{
    for from in 0..line.len() {
        if line[from] != b' ' {
            return &line[from..];
        }
    }
    &line[line.len()..]
}

// The end of the word at the start of a line.
fn word_end(line: &[u8]) -> usize
    ensures { RunsTo (λ b. b ≢ space) line.now 0 result }
{
    for end in 0..line.len() {
        if line[end] == b' ' {
            return end;
        }
    }
    line.len()
}
