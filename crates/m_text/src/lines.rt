//! The lines of a text.

ghost use Rattle.std.specs.Prelude.{◌≡◌, ◌+◌, ◌<◌, ◌==◌, [], ◌∷◌, length, drop, IfSome, MatchOption};
ghost use Rattle.std.specs.Str.{is_utf8};
ghost use Rattle.m_text.specs.Lines.{lines_of, exact_lines_of, without_return};

use crate::runs::line_end;

/// The first line of a text and the text after its line feed; `None` if the text is empty. A
/// carriage return right before the line feed is dropped. Takes no memory.
///
/// `first_line(b"iliad\r\na.m")` is the line `iliad` and the rest `a.m`.
pub fn first_line(bytes: &[u8]) -> Option<(&[u8], &[u8])>
    ensures first { MatchOption result (bytes.now ≡ []) (λ r. lines_of bytes.now ≡ r.0.now ∷ lines_of r.1.now) }
    ensures shorter { IfSome result (λ r. length r.1.now < length bytes.now) }
{
    if bytes.is_empty() {
        return None;
    }
    let end = line_end(bytes, 0);
    if end == bytes.len() {
        return Some((bytes, &bytes[end..]));
    }
    Some((without_return(&bytes[..end]), &bytes[end + 1..]))
}

/// `first_line` without dropping carriage returns. Takes no memory.
///
/// `first_exact_line(b"iliad\r\na.m")` is the line `iliad\r` and the rest `a.m`.
pub fn first_exact_line(bytes: &[u8]) -> Option<(&[u8], &[u8])>
    ensures first { MatchOption result (bytes.now ≡ []) (λ r. exact_lines_of bytes.now ≡ r.0.now ∷ exact_lines_of r.1.now) }
    ensures shorter { IfSome result (λ r. length r.1.now < length bytes.now) }
{
    if bytes.is_empty() {
        return None;
    }
    let end = line_end(bytes, 0);
    if end == bytes.len() {
        return Some((bytes, &bytes[end..]));
    }
    Some((&bytes[..end], &bytes[end + 1..]))
}

/// A line without a carriage return at its end. Takes no memory.
pub fn without_return(line: &[u8]) -> &[u8]
    ensures { result.now ≡ without_return line.now }
{
    if line.is_empty() {
        return line;
    }
    let last = line.len() - 1;
    if line[last] == b'\r' {
        &line[..last]
    } else {
        line
    }
}

/// Whether a text is UTF-8. Takes no memory.
pub fn is_text(bytes: &[u8]) -> bool
    ensures { result ≡ is_utf8 bytes.now }
{
    std::str::from_utf8(bytes).is_ok()
}
