//! Amounts written as text.
ghost use Rattle.std.specs.Prelude.{◌≡◌, ◌≤◌, ◌<◌, ◌+◌, ◌^◌, length, take, drop, ◌++◌, decimal};
ghost use Rattle.m_fixed.specs.Amounts.{most};
ghost use Rattle.m_fixed.specs.Text.{printed, size_text, fraction_text, decimals_of, Writes};

use crate::Amount;
use crate::amount::UNIT;

/// Writes the printed form of an amount, as `-1.5005`, to the start of the buffer, and returns its
/// length. The rest of the buffer is unchanged.
pub fn write_amount(a: Amount, room: &mut [u8; 32]) -> usize
    ensures text { take result room.new ≡ printed a }
    ensures rest { drop result room.new ≡ drop result room.old }
    ensures length { result ≡ length (printed a) }
    ensures short { result ≤ 21 }
{
    let size = a.size();
    if a.is_negative() {
        room[0] = b'-';
        write_size(room, 1, size)
    } else {
        write_size(room, 0, size)
    }
}

/// Writes millionths as units and decimals from a position on, and returns the position after them.
fn write_size(room: &mut [u8; 32], at: usize, size: u64) -> usize
    requires at_in { at ≤ 1 }
    requires size_in { size ≤ most }
    ensures text { Writes room.old room.new at (size_text size) result }
    ensures short { result ≤ at + 20 }
{
    let at = write_whole(room, at, size / UNIT);
    write_fraction(room, at, size % UNIT)
}

/// Writes a whole number from a position on, and returns the position after it.
fn write_whole(room: &mut [u8; 32], at: usize, n: u64) -> usize
    requires { at + length (decimal n) ≤ 32 }
    ensures { Writes room.old room.new at (decimal n) result }
{
    if n < 10 {
        room[at] = b'0' + n as u8;
        return at + 1;
    }
    let end = write_whole(room, at, n / 10);
    room[end] = b'0' + (n % 10) as u8;
    end + 1
}

/// Writes a point and the decimals of this many millionths from a position on, if there are any,
/// and returns the position after them.
fn write_fraction(room: &mut [u8; 32], at: usize, fraction: u64) -> usize
    requires at_in { at + 7 ≤ 32 }
    requires fraction_in { fraction < 10 ^ 6 }
    ensures { Writes room.old room.new at (fraction_text fraction) result }
{
    if fraction == 0 {
        return at;
    }
    room[at] = b'.';
    write_decimals(room, at + 1, fraction, 6, UNIT)
}

/// Writes the decimals of `fraction / parts` from a position on, without zeros at the end, and
/// returns the position after them.
fn write_decimals(room: &mut [u8; 32], at: usize, fraction: u64, places: usize, parts: u64) -> usize
    requires parts_in { parts ≡ 10 ^ places }
    requires fraction_in { fraction < 10 ^ places }
    requires places_in { places ≤ 6 }
    requires at_in { at + places ≤ 32 }
    ensures { Writes room.old room.new at (decimals_of places fraction) result }
{
    if fraction == 0 {
        return at;
    }
    let part = parts / 10;
    room[at] = b'0' + (fraction / part) as u8;
    write_decimals(room, at + 1, fraction % part, places - 1, part)
}
