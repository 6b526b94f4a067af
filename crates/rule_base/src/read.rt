//! Rule files, parsed by several workers.

ghost use Rattle.std.specs.Prelude.{◌<◌, ◌≤◌, ◌+◌, length};
ghost use Rattle.m_places.specs.Refusals.{Outcome};
ghost use Rattle.m_places.specs.declared.limits.TheConstants.{LIST_FILES};
ghost use Rattle.m_places.specs.SourceLimits.{TextsAreWithin, EachIsWithin};
ghost use Rattle.rule_base.specs.Files.{SayEach, IsFirstFileFault};
ghost use Rattle.rule_base.specs.declared.read_fault.ReadFault.TheVariants.{Memory};

use crate::each_file::read_files;
use crate::read_fault::ReadFault;
use m_ast::Item;
use m_places::{Gate, Seq, Text};
use std::alloc::Global;
use std::thread::Threads;
use workers::{join_parts, part_size};

// Parts per processor. Files differ in size, so there are more parts than processors: a worker that
// finishes a part takes another. A part is a run of neighbouring files; one large file is read by
// one worker.
const PARTS: usize = 4;

// Files of more bytes than these together are read one after another. The tokens of a file take up
// to 80 times its bytes while it is read, its items up to 64 times: 64 MB read by four workers at a
// time would take more than 8 GB.
const HEAVY: usize = 33_554_432;

// Files of fewer bytes than these together are read one after another too: a thread takes as long to
// start as 6 KB take to be read.
const LIGHT: usize = 32_768;

// How many neighbouring files a worker reads: all of them, if threads don't pay.
fn files_at_once<R: Threads>(rt: &R, texts: &[Text]) -> usize
    ensures { 0 < result }
{
    let bytes = bytes_of(texts);
    if bytes < LIGHT || bytes > HEAVY {
        texts.len().max(1)
    } else {
        part_size(rt, texts.len(), PARTS)
    }
}

// The bytes of all files.
fn bytes_of(texts: &[Text]) -> usize {
    let mut bytes = 0usize;
    for text in texts {
        bytes = bytes.saturating_add(text.bytes.as_slice().len());
    }
    bytes
}

/// The items of each rule file, in the order of the files, or the error of the first file that
/// fails, in whatever order the workers finish. The worker that reads file k, from 0, first calls
/// `gate.pass(k)`. `TextsAreWithin` bounds the count of files, so a file's number can't overflow.
pub fn read_all<R: Threads + Sync, G: Gate + Sync>(
    rt: &R,
    alloc: Global,
    texts: &[Text],
    gate: &G,
) -> Result<Seq<Seq<Item>>, ReadFault>
    requires { TextsAreWithin texts.now }
    ensures { Outcome Memory result (SayEach 0 texts.now) (IsFirstFileFault 0 texts.now) }
{
    let size = files_at_once(rt, texts);
    let files = join_parts(
        rt,
        alloc,
        gate,
        texts,
        size,
        &|start: usize, files: &[Text]| -> Result<Vec<Seq<Item>>, ReadFault>
            requires { (start + length files.now ≤ LIST_FILES) × EachIsWithin files.now }
            ensures { Outcome Memory result (λ stated. SayEach start files.entry.now stated.items) (IsFirstFileFault start files.entry.now) }
        { read_files(alloc, start, files) },
    )??;
    Ok(Seq::from_vec(files))
}
