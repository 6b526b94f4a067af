//! The program `m_tax`: `main`, which passes the words, the real files, the real input and the real output to `m_tax` of
//! m_commands.
//!
//! Uses the adapters of m_ports to the system. Knows nothing of the commands: the call to `m_commands` carries the
//! program's theorem. The call is made on a thread with a stack large enough for the deepest terms.
#![tactic(auto)]

use m_commands::{Status, m_tax};
use m_ports::{HostFiles, HostSink, HostSource, command_words, exit_after};
use std::process::ExitCode;

fn main(rt: HostRuntime) -> ExitCode {
    let work = move || -> u8 {
        let alloc = rt.alloc();
        let Ok(words) = command_words(&rt) else {
            return Status::Memory.number();
        };
        let mut files = HostFiles::new(alloc, &rt);
        let mut input = HostSource::new(rt.stdin());
        let mut out = HostSink::new(rt.stdout());
        m_tax(&rt, alloc, &words, &mut files, &mut input, &mut out).number()
    };
    exit_after(&rt, work)
}
