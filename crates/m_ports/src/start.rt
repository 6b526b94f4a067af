//! What programs begin with: the words of the command line, and a thread with a large stack.
ghost use Rattle.std.specs.Prelude.{⊤};

use m_places::{Name, Word};
use std::alloc::AllocError;
use std::process::ExitCode;
use std::thread::{Builder, Promise, Threads};
use std::{env, io};

/// The stack of the thread in bytes. The deepest term of the formats takes less than two megabytes.
const STACK: usize = 16_777_216;

// The thread promises nothing about the status: the contract of the call that makes it specifies it.
#[derive(Drop)]
struct AnyStatus;

impl Promise<u8> for AnyStatus {
    ghost kept_by = { λ _ _. ⊤ };
}

/// The words after the program's name. A command line that can't be decoded as text has no words, and so is no
/// command. The only error is out of memory.
pub fn command_words<R: env::Env + AllocGlobal>(rt: &R) -> Result<Vec<Word>, AllocError> {
    let mut words = Vec::new(rt.alloc());
    match env::args(rt) {
        Ok(arguments) => {
            for argument in arguments.skip(1) {
                words.push(Name::new(rt.alloc(), argument.as_bytes())?)?;
            }
        }
        Err(error) => {
            if error.kind() == io::ErrorKind::OutOfMemory {
                return Err(AllocError);
            }
        }
    }
    Ok(words)
}

/// The exit status of this work, done on a thread with a stack of 16 MB, whatever stack the system gives the first
/// thread. If no thread can be made, the first one does the work.
pub fn exit_after<R: Threads, F: FnOnce() -> u8 + Send + 'static>(rt: &R, work: F) -> ExitCode
    requires { F.pre work }
{
    match Builder::new()
        .stack_size(STACK)
        .spawn_with(rt, AnyStatus, work)
    {
        Ok(thread) => ExitCode::from(thread.join(rt)),
        Err(refused) => ExitCode::from((refused.value)()),
    }
}
