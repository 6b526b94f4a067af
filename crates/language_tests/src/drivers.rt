//! Drivers that are read, and texts that are rejected, with the line of the error.
use crate::lines::add_fault;
use crate::readings::{Reading, check_all};
use crate::texts::add_number;
use m_places::limits::FILE_BYTES;
use mpp_parser::parse_driver;
use std::alloc::Global;
use std::test::Fail;

// Texts that are drivers, with the number of their functions.
static DRIVERS: [(&str, &str); 9] = [
    ("", "0"),
    ("# nothing\n\n", "0"),
    ("main():\n  IRN <- call_m()\n", "1"),
    ("main():\n A=1\n\nf():\n        B[10] = -A\n", "2"),
    (
        "f():\n  if A:\n     B = 1\n  else:\n   if C:\n    D = 1\n   else:\n    E = 1\n  del D\n",
        "1",
    ),
    ("f():\n  A, T[3], B <- g()\ng():\n  del T[0]\n", "2"),
    (
        "f():\n  partition with avfisc = 1, 2.5:\n    A = exists(taxbenefit)\n",
        "1",
    ),
    (
        "f():\n  partition with taxbenefit = 1:\n    A = present(B) and not cast(C) == (1 + 2) * 3 or 0\n",
        "1",
    ),
    ("f():\r\n  A = 1\r\n", "1"),
];

// Texts that are no driver, and the line of the error.
static FAULTS: [(&str, &str); 30] = [
    ("main():\n  IRN = 1\n  IRN <-1", "syntax 3"),
    ("main():\n  IRN <-1", "syntax 1"),
    ("main():\n\tIRN = 1", "token 2"),
    ("main():", "syntax 1"),
    (" main():\n  A = 1", "syntax 1"),
    ("A = 1", "syntax 1"),
    ("main():\n    A = 1\n  B = 2", "syntax 3"),
    ("main():\n  A = 1\n    B = 2", "syntax 3"),
    ("main():\n  A = 1\nB = 2", "syntax 3"),
    ("main():\n  if A:\n    B = 1\n   C = 2", "syntax 4"),
    ("main():\n  A = 1\n  if A:\n  C = 2", "syntax 3"),
    ("main():\n  if A:\n    B = 1\n  else:\n  C = 2", "syntax 4"),
    (
        "main():\n  if A:\n    B = 1\n  else:\n    C = 2\n  else:\n    C = 3",
        "syntax 6",
    ),
    (
        "main():\n  if A:\n    B = 1\n    else:\n      C = 2",
        "syntax 4",
    ),
    ("main():\n  else:\n    C = 2", "syntax 1"),
    ("main():\n  A = 1\n  f():\n    C = 2", "syntax 3"),
    ("f():\n  A = 1 2", "syntax 1"),
    ("f():\n  A = 1 < 2 < 3", "syntax 1"),
    ("f():\n  A = - - 1", "syntax 1"),
    ("f():\n  A = not not B", "syntax 1"),
    ("f():\n  A = B == not C", "syntax 1"),
    ("f():\n  A = present(1)", "syntax 1"),
    ("f():\n  A = cast(B + 1)", "syntax 1"),
    ("f():\n  A = exists(B)", "syntax 1"),
    ("f():\n  if = 1", "syntax 1"),
    ("f():\n  A[1.0] = 1", "syntax 1"),
    ("f():\n  A[1234567890] = 1", "syntax 1"),
    ("f():\n  A = T[B]", "syntax 1"),
    ("f():\n  f()", "syntax 1"),
    ("f():\n  A <- g(B)", "syntax 1"),
];

// The tables as functions, so that proofs about their users don't expand them.

fn all_drivers() -> &'static [(&'static str, &'static str)] {
    &DRIVERS
}

fn all_faults() -> &'static [(&'static str, &'static str)] {
    &FAULTS
}

/// Adds the number of functions of a driver, or the error of a text that is no driver.
pub fn add_driver(alloc: Global, out: &mut Vec<u8>, text: &[u8]) {
    if text.len() as u64 > FILE_BYTES {
        return;
    }
    match parse_driver(alloc, text) {
        Ok(driver) => add_number(alloc, out, driver.functions.as_slice().len() as i128),
        Err(fault) => add_fault(alloc, out, fault),
    }
}

#[test]
fn drivers(rt: HostRuntime) -> Result<(), Fail> {
    check_all(rt.alloc(), Reading::Driver, all_drivers())
}

#[test]
fn faults(rt: HostRuntime) -> Result<(), Fail> {
    check_all(rt.alloc(), Reading::Driver, all_faults())
}
