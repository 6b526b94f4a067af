//! The file names of a source.
ghost use Rattle.std.specs.Prelude.{◌≡◌, IfOk};

use m_places::{Name, Word};
use std::alloc::{AllocError, Global};

/// The file names of a source. `-` in place of the driver or the requests means that there are none.
#[derive(Drop)]
pub struct SourceNames {
    pub list: Name,
    pub driver: Name,
    pub requests: Name,
}

/// The names of a source, copied from words. The only error is out of memory.
pub fn names_of(
    alloc: Global,
    list: &Word,
    driver: &Word,
    requests: &Word,
) -> Result<SourceNames, AllocError>
    ensures { IfOk result (λ names. names ≡ record { list = list.now; driver = driver.now; requests = requests.now }) }
{
    Ok(SourceNames {
        list: list.copy(alloc)?,
        driver: driver.copy(alloc)?,
        requests: requests.copy(alloc)?,
    })
}
