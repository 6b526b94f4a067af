//! The bytes of an incomplete line, and the pieces of input after them.
ghost use Rattle.std.specs.Prelude.{◌≡◌, ◌+◌, ◌-◌, ◌<◌, ◌≤◌, length, min, take, drop, IfOk, OnErr, OnOk};
ghost use Rattle.std.specs.Io.KnownBytes.{prepend_known, IsAtEnd};
ghost use Rattle.m_ports.specs.Counts.{Rose};

use m_ports::{Failed, Source};

/// The greatest number of bytes held of an incomplete line: one more than the limit of a line,
/// which is enough to recognise that it is too long.
pub(crate) const MOST_HELD: usize = 4_097;

/// Reads a piece of at most `most` bytes after the first `held` ones, and returns its length; 0 is
/// the end of the input.
pub(crate) fn take_piece<S: Source>(
    input: &mut S,
    room: &mut [u8],
    held: usize,
    most: u64,
) -> Result<usize, Failed>
    requires room { held < length room.old }
    requires some { 0 < most }
    ensures within { IfOk result (λ n. (held + n ≤ length room.new) × (n ≤ most)) }
    ensures kept { take held room.new ≡ take held room.old }
    ensures moved { IfOk result (λ n. S.left input.old ≡ prepend_known (take n (drop held room.new)) (S.left input.new)) }
    ensures end { IfOk result (λ n. n ≡ 0 → IsAtEnd (S.left input.old)) }
    ensures failed { OnErr result (Rose (S.faults input.old) (S.faults input.new)) }
    ensures left { OnErr result (S.left input.new ≡ S.left input.old) }
    ensures faultless { OnOk result (S.faults input.new ≡ S.faults input.old) }
{
    let end = piece_end(held, room.len(), most);
    input.take(&mut room[held..end])
}

// The greatest end of a piece of at most `most` bytes.
fn piece_end(held: usize, room: usize, most: u64) -> usize
    requires some { 0 < most }
    requires room { held < room }
    ensures some { held < result }
    ensures within { result ≤ room }
    ensures most { result - held ≤ most }
{
    if ((room - held) as u64) < most {
        room
    } else {
        held + most as usize
    }
}

/// Moves the bytes from `from` to `filled` to the start, but at most `MOST_HELD` of them, and
/// returns how many it moved.
pub(crate) fn keep(room: &mut [u8], from: usize, filled: usize) -> usize
    requires order { from ≤ filled }
    requires within { filled ≤ length room.old }
    ensures count { result ≡ min (filled - from) MOST_HELD }
    ensures front { take result room.new ≡ take result (drop from (take filled room.old)) }
{
    let count = (filled - from).min(MOST_HELD);
    if from == 0 {
        return count;
    }
    room.copy_within(from..from + count, 0);
    count
}
