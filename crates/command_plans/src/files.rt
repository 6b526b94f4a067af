ghost use Rattle.std.specs.Prelude.{◌≡◌, ◌≤◌, length, IfOk};
ghost use Rattle.command_plans.specs.Plan.{file_plan};
ghost use Rattle.command_plans.specs.Trips.{GoesAlong};
ghost use Rattle.command_plans.specs.Views.{files_view};

use crate::{Ending, Refusal};
use m_places::{Name, Seq};
use m_ports::{FetchFault, Files};
use std::alloc::Global;

/// Fetches the file of this name, of at most `limit` bytes. The error is what ends the command: a file that can't be
/// read or is too long, or out of memory.
pub fn fetch<F: Files>(
    alloc: Global,
    files: &mut F,
    name: &Name,
    limit: u64,
) -> Result<Seq<u8>, Ending>
    ensures along { GoesAlong (file_plan name.now limit) (files_view F.known_files F.attempts F.taken files.old)
        (files_view F.known_files F.attempts F.taken files.new) result }
    ensures within { IfOk result (λ bytes. length bytes ≤ limit) }
{
    let name = name.copy(alloc)?;
    match files.fetch(alloc, &name, limit) {
        Ok(bytes) => Ok(Seq::from_vec(bytes)),
        Err(FetchFault::Failed) => Err(Ending::Unreadable(name)),
        Err(FetchFault::TooLong) => Err(Ending::Refused(Refusal::FileTooLong(name))),
        Err(FetchFault::Memory) => Err(Ending::Memory),
    }
}
