//! Numbers and literals of code files.
ghost use Rattle.std.specs.Prelude.{◌≡◌, ◌<◌, ◌≤◌, IfSome, Some, None, option_map, pos};
ghost use Rattle.std.specs.Option.{option_and_then};
ghost use Rattle.m_fixed.specs.Amounts.{most};
ghost use Rattle.code_file.specs.inner.Spelled.{number, number_after, register, short, literal, millionths, below_zero};

use m_fixed::{Amount, Value};
use m_text::is_digit;

/// One more than the greatest amount, in millionths.
const TOO_MANY: u64 = 10_000_000_000_000_000_001;

/// The number of a decimal text without leading zeros, if it is below `below`.
pub fn number(text: &[u8], below: u64) -> Option<u64>
    requires some { 0 < below }
    requires few { below ≤ 10000000000000000001 }
    ensures value { result ≡ number below text.now }
    ensures small { IfSome result (λ n. n < below) }
{
    match text {
        [] => None,
        [first, rest @ ..] => {
            if *first == b'0' && 0 < rest.len() {
                None
            } else {
                digits(text, below)
            }
        }
    }
}

// The number of a decimal text, if it is below `below`. Leading zeros are accepted.
fn digits(text: &[u8], below: u64) -> Option<u64>
    requires some { 0 < below }
    requires few { below ≤ 10000000000000000001 }
    ensures value { result ≡ number_after below 0 text.now }
    ensures small { IfSome result (λ n. n < below) }
{
    let mut number: u64 = 0;
    for byte in text {
        if !is_digit(*byte) {
            return None;
        }
        let more = number as u128 * 10 + (*byte - b'0') as u128;
        if more >= below as u128 {
            return None;
        }
        number = more as u64;
    }
    Some(number)
}

/// A register's number, below 16.
pub fn register(text: &[u8]) -> Option<u8>
    ensures value { result ≡ register text.now }
{
    match number(text, 16) {
        Some(number) => Some(number as u8),
        None => None,
    }
}

/// A number below 2^32.
pub fn short(text: &[u8]) -> Option<u32>
    ensures value { result ≡ short text.now }
{
    match number(text, 4_294_967_296) {
        Some(number) => Some(number as u32),
        None => None,
    }
}

// An amount in whole millionths, with `-` before a negative one.
fn millionths(text: &[u8]) -> Option<Amount>
    ensures { result ≡ millionths text.now }
{
    match text {
        [] => None,
        [first, rest @ ..] => {
            if *first == b'-' {
                below_zero(number(rest, TOO_MANY)?)
            } else {
                above_zero(number(text, TOO_MANY)?)
            }
        }
    }
}

fn below_zero(size: u64) -> Option<Amount>
    requires { size < 10000000000000000001 }
    ensures { result ≡ below_zero size }
{
    if size == 0 {
        None
    } else {
        Amount::new(-(size as i128))
    }
}

fn above_zero(size: u64) -> Option<Amount>
    requires { size < 10000000000000000001 }
    ensures { result ≡ Some (pos size) }
{
    Amount::new(size as i128)
}

/// A literal: `undef`, `over`, or an amount in whole millionths.
pub fn literal(text: &[u8]) -> Option<Value>
    ensures { result ≡ literal text.now }
{
    if text == b"undef".as_slice() {
        return Some(Value::Undef);
    }
    if text == b"over".as_slice() {
        return Some(Value::Over);
    }
    match millionths(text) {
        Some(amount) => Some(Value::Num(amount)),
        None => None,
    }
}
