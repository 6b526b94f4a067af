//! Kinds of bytes, and runs of one kind.

ghost use Rattle.std.specs.Prelude.{◌≡◌, ◌≢◌, ◌≤◌, ◌↔◌, ◌==◌, IsTrue, length, count_by};
ghost use Rattle.m_text.specs.Bytes.{IsWordByte, IsDigit, RunsTo, is_digit, line_feed, quote};

/// Whether a byte may occur in a word: a letter of ASCII, a digit or `_`.
pub fn is_word_byte(b: u8) -> bool
    ensures { IsTrue result ↔ IsWordByte b }
{
    b.is_ascii_alphanumeric() || b == b'_'
}

/// Whether a byte is a digit, `0` to `9`.
pub fn is_digit(b: u8) -> bool
    ensures { result ≡ is_digit b }
{
    b'0' <= b && b <= b'9'
}

/// The end of the run of word bytes from a position: 3 in `1AJ+2` from 0, and 3 from 3.
pub fn word_end(bytes: &[u8], from: usize) -> usize
    requires { from ≤ length bytes.now }
    ensures { RunsTo IsWordByte bytes.now from result }
{
    for end in from..bytes.len() {
        if !is_word_byte(bytes[end]) {
            return end;
        }
    }
    bytes.len()
}

/// The end of the run of digits from a position: 2 in `08..10` from 0, and 2 from 2.
pub fn digits_end(bytes: &[u8], from: usize) -> usize
    requires { from ≤ length bytes.now }
    ensures { RunsTo IsDigit bytes.now from result }
{
    for end in from..bytes.len() {
        if !bytes[end].is_ascii_digit() {
            return end;
        }
    }
    bytes.len()
}

/// The end of the line that contains a position: the position of its line feed, or the length. It
/// is 1 in `a\nb` from 0, and 3 from 2.
pub fn line_end(bytes: &[u8], from: usize) -> usize
    requires { from ≤ length bytes.now }
    ensures { RunsTo (λ b. b ≢ line_feed) bytes.now from result }
{
    for end in from..bytes.len() {
        if bytes[end] == b'\n' {
            return end;
        }
    }
    bytes.len()
}

/// The position of the first quote from a position on, or the length: 2 in `ab"c` from 0, and 4
/// from 3.
pub fn quote_end(bytes: &[u8], from: usize) -> usize
    requires { from ≤ length bytes.now }
    ensures { RunsTo (λ b. b ≢ quote) bytes.now from result }
{
    for end in from..bytes.len() {
        if bytes[end] == b'"' {
            return end;
        }
    }
    bytes.len()
}

/// The number of line feeds: 2 in `a\n\nb`.
pub fn line_feeds(bytes: &[u8]) -> usize
    ensures { result ≡ count_by (λ b. b == line_feed) bytes.now }
{
    bytes.iter().filter(|b| **b == b'\n').count()
}
