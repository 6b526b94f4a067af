//! The failures injected into the runs of a row, by its file `mishaps`.
//!
//! A line has a word with numbers, `N` or `N..M` (`M` included), and the row is run once for each number of each line:
//!
//! | Line | Injected failure |
//! |---|---|
//! | `none` | none, as for a row without this file |
//! | `fetch N..M` | the fetch with this number, from 1, fails |
//! | `read N..M` | the read of the input with this number fails |
//! | `write N..M` | the write with this number fails |
//! | `cut FILE N..M` | the file has only this many of its first bytes |
//! | `long FILE` | the file has only blanks, one more than the limit of most files |
//!
//! Each call moves one byte, or up to 7 in a run without a failure.
ghost use Rattle.std.specs.Prelude.{◌≤◌};

use crate::row::{File, file_of};
use m_places::Name;
use m_places::limits::FILE_BYTES;
use std::alloc::{AllocError, Global};

/// The kinds of injected failures.
#[derive(Clone, Copy)]
enum MishapKind {
    Nothing,
    Fetch,
    Read,
    Write,
    Cut,
    Long,
}

/// The first words of lines.
static KINDS: [(&str, MishapKind); 6] = [
    ("none", MishapKind::Nothing),
    ("fetch", MishapKind::Fetch),
    ("read", MishapKind::Read),
    ("write", MishapKind::Write),
    ("cut", MishapKind::Cut),
    ("long", MishapKind::Long),
];

/// An injected failure: its kind, the file that it changes (if it changes one), its number, and the line of `mishaps`.
#[derive(Drop)]
pub struct Mishap<'a> {
    pub line: &'a str,
    kind: MishapKind,
    file: &'a str,
    pub number: u32,
}

/// The injected failures of a line, one for each number from the first to the last.
#[derive(Drop)]
pub struct Mishaps<'a> {
    line: &'a str,
    kind: MishapKind,
    file: &'a str,
    pub first: u32,
    pub last: u32,
}

/// The kind of a line with this first word.
fn kind_of(word: &str) -> Option<MishapKind> {
    KINDS
        .iter()
        .find(|(first, _)| *first == word)
        .map(|(_, kind)| *kind)
}

/// The numbers of `N` or `N..M`.
fn numbers_of(text: &str) -> Option<(u32, u32)> {
    let (first, last) = text.split_once("..").unwrap_or((text, text));
    Some((first.parse().ok()?, last.parse().ok()?))
}

/// The number of a call, if it fails.
fn calls(alloc: Global, fails: bool, number: u32) -> Vec<u64> {
    let mut calls = Vec::new(alloc);
    if fails {
        let _added = calls.push(u64::from(number));
    }
    calls
}

impl<'a> Mishaps<'a> {
    /// The failures of a line; None if the line is malformed, or can't cause a failure in a row with these files.
    pub fn new(line: &'a str, files: &[File]) -> Option<Mishaps<'a>> {
        let mut words = line.split_whitespace();
        let kind = kind_of(words.next()?)?;
        let file = match kind {
            MishapKind::Cut | MishapKind::Long => words.next()?,
            _ => "",
        };
        let (first, last) = match kind {
            MishapKind::Nothing | MishapKind::Long => (1, 1),
            _ => numbers_of(words.next()?)?,
        };
        let mishaps = Mishaps {
            line,
            kind,
            file,
            first,
            last,
        };
        if words.next().is_none() && mishaps.fail_run(files) {
            Some(mishaps)
        } else {
            None
        }
    }

    /// Whether they can occur in runs of a row with these files: calls are numbered from 1, and a file that is cut has
    /// the bytes that are left of it.
    fn fail_run(&self, files: &[File]) -> bool {
        let can = match self.kind {
            MishapKind::Cut => match file_of(files, self.file) {
                Some(bytes) => self.last as usize <= bytes.len(),
                None => false,
            },
            MishapKind::Long => file_of(files, self.file).is_some(),
            _ => self.first > 0,
        };
        can && self.first <= self.last
    }

    /// The failure with this number.
    pub fn at(&self, number: u32) -> Mishap<'a> {
        Mishap {
            line: self.line,
            kind: self.kind,
            file: self.file,
            number,
        }
    }
}

impl Mishap<'_> {
    /// How many bytes a call moves.
    pub fn piece(&self) -> usize
        ensures { 1 ≤ result }
    {
        match self.kind {
            MishapKind::Nothing => 7,
            _ => 1,
        }
    }

    /// The number of the fetch that fails, if any.
    pub fn failing_fetch(&self, alloc: Global) -> Vec<u64> {
        calls(alloc, matches!(self.kind, MishapKind::Fetch), self.number)
    }

    /// The number of the read that fails, if any.
    pub fn failing_read(&self, alloc: Global) -> Vec<u64> {
        calls(alloc, matches!(self.kind, MishapKind::Read), self.number)
    }

    /// The number of the write that fails, if any.
    pub fn failing_write(&self, alloc: Global) -> Vec<u64> {
        calls(alloc, matches!(self.kind, MishapKind::Write), self.number)
    }

    /// Adds the file that the failure changes, with its changed bytes, if it is among these files.
    pub fn add_changed(
        &self,
        alloc: Global,
        files: &[File],
        changed: &mut Vec<File>,
    ) -> Result<(), AllocError> {
        let bytes = match (self.kind, file_of(files, self.file)) {
            (MishapKind::Cut, Some(bytes)) => {
                Vec::from_slice(alloc, &bytes[..bytes.len().min(self.number as usize)])?
            }
            (MishapKind::Long, _) => vec![in alloc; b' '; FILE_BYTES as usize + 1]?,
            _ => return Ok(()),
        };
        changed.push((Name::new(alloc, self.file.as_bytes())?, bytes))?;
        Ok(())
    }

    /// What is written of a text: the bytes before the one whose write fails.
    pub fn written<'t>(&self, text: &'t [u8]) -> &'t [u8] {
        let before = (self.number as usize).saturating_sub(1);
        if matches!(self.kind, MishapKind::Write) && before < text.len() {
            &text[..before]
        } else {
            text
        }
    }
}
