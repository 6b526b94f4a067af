//! Reports which row of a table failed.
use std::alloc::Global;
use std::test::Fail;

/// Fails at the row of this number, if any.
pub fn check(alloc: Global, other: Option<usize>) -> Result<(), Fail> {
    match other {
        Some(row) => Err(other_at_row(alloc, row)),
        None => Ok(()),
    }
}

fn other_at_row(alloc: Global, row: usize) -> Fail {
    match format!(in alloc; "another answer in row {row}") {
        Ok(reported) => Fail::from(reported),
        Err(_) => Fail::from("another answer"),
    }
}
