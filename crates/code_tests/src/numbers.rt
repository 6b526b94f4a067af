//! Values that are amounts.
use m_fixed::{Amount, Value};

/// This many millionths, or over.
pub fn number(millionths: i128) -> Value {
    match Amount::new(millionths) {
        Some(amount) => Value::Num(amount),
        None => Value::Over,
    }
}

/// This many whole units.
pub fn units(n: i64) -> Value {
    number(n as i128 * 1_000_000)
}
