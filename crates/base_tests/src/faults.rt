//! The line of a fault that no row of plain files shows, and a line that is cut.
use m_ports::{MemSink, Sink};
use std::alloc::Global;
use tax_print::{Fault, give_fault};

/// Whether a fault is reported by this text, to an output that takes a byte at a time and whose call of this number
/// fails.
fn is_reported(alloc: Global, fault: Fault<'_>, failing: u64, whole: bool, text: &[u8]) -> bool {
    let Ok(failing) = vec![in alloc; failing] else {
        return false;
    };
    match MemSink::new(alloc, 1, failing) {
        Ok(mut out) => give_fault(fault, &mut out).is_ok() == whole && out.written() == text,
        Err(_) => false,
    }
}

#[test]
fn an_input_that_is_too_long(rt: HostRuntime) {
    assert!(rt;
        is_reported(
            rt.alloc(),
            Fault::Words(b"refused input too long"),
            99,
            true,
            b"refused input too long\n"
        )
    );
}

/// A line whose third write fails has the bytes of the first two.
#[test]
fn a_line_that_is_cut(rt: HostRuntime) {
    assert!(rt;
        is_reported(
            rt.alloc(),
            Fault::OfNumber(b"refused list line ", 2),
            3,
            false,
            b"re"
        )
    );
}
