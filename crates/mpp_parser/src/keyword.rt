//! The reserved words of a driver.

ghost use Rattle.std.specs.Prelude.{◌≡◌};
ghost use Rattle.mpp_parser.specs.Keywords.{keyword_of, operator_keyword_of};

/// A reserved word.
#[derive(Clone, Copy, Debug, PartialEq, Eq)]
pub enum Keyword {
    Del,
    If,
    Else,
    Partition,
    With,
    And,
    Or,
    Not,
    Present,
    Cast,
    Exists,
}

/// The keyword that a word is, if it is one. Takes no memory.
#[tactic(auto, unfolding(crate::specs::Keywords::keyword_of))]
pub fn keyword_of(word: &[u8]) -> Option<Keyword>
    ensures { result ≡ keyword_of word.now }
{
    if word == b"del".as_slice() {
        return Some(Keyword::Del);
    }
    if word == b"if".as_slice() {
        return Some(Keyword::If);
    }
    if word == b"else".as_slice() {
        return Some(Keyword::Else);
    }
    if word == b"partition".as_slice() {
        return Some(Keyword::Partition);
    }
    if word == b"with".as_slice() {
        return Some(Keyword::With);
    }
    operator_keyword_of(word)
}

// The same for the words of terms.
#[tactic(auto, unfolding(crate::specs::Keywords::operator_keyword_of))]
fn operator_keyword_of(word: &[u8]) -> Option<Keyword>
    ensures { result ≡ operator_keyword_of word.now }
{
    if word == b"and".as_slice() {
        return Some(Keyword::And);
    }
    if word == b"or".as_slice() {
        return Some(Keyword::Or);
    }
    if word == b"not".as_slice() {
        return Some(Keyword::Not);
    }
    if word == b"present".as_slice() {
        return Some(Keyword::Present);
    }
    if word == b"cast".as_slice() {
        return Some(Keyword::Cast);
    }
    if word == b"exists".as_slice() {
        return Some(Keyword::Exists);
    }
    None
}
