//! Splitting a text at a byte.

ghost use Rattle.std.specs.Prelude.{◌≡◌, ◌≤◌, ◌<◌, ◌+◌, length, take, drop, Some, None};
ghost use Rattle.m_text.specs.Parts.{split_at};

/// The position of the first occurrence of a byte, or the length if it doesn't occur: 1 in `T[2]`
/// for `[`, and 3 in `IRN`. Takes no memory.
pub fn first_of(text: &[u8], byte: u8) -> usize
    ensures within { result ≤ length text.now }
    ensures none { result ≡ length text.now → split_at byte text.now ≡ (take result text.now, None) }
    ensures some { result < length text.now → split_at byte text.now ≡ (take result text.now, Some (drop (result + 1) text.now)) }
{
    let mut at = 0;
    while at < text.len() && text[at] != byte {
        at += 1;
    }
    at
}
