//! The program `m_survey`: `main`, which passes the words, the real files and the real output to `m_survey` of
//! survey_commands.
//!
//! Uses the adapters of m_ports to the system. Knows nothing of the commands: the call to `survey_commands` carries the
//! program's theorem. The call is made on a thread with a stack large enough for the deepest terms.
#![tactic(auto)]

use m_ports::{HostFiles, HostSink, command_words, exit_after};
use std::process::ExitCode;
use survey_commands::{Status, m_survey};

fn main(rt: HostRuntime) -> ExitCode {
    let work = move || -> u8 {
        let alloc = rt.alloc();
        let Ok(words) = command_words(&rt) else {
            return Status::Memory.number();
        };
        let mut files = HostFiles::new(alloc, &rt);
        let mut out = HostSink::new(rt.stdout());
        m_survey(&rt, alloc, &words, &mut files, &mut out).number()
    };
    exit_after(&rt, work)
}
