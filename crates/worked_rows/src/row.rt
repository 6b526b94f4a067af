//! The inputs of a row, and the expected observation.
use crate::mishap::Mishap;
use m_places::{Name, Word};
use m_ports::{Attempt, MemFiles, MemSink};
use std::alloc::{AllocError, Global};

/// A file: its name, and its bytes.
pub type File = (Name, Vec<u8>);

/// The words of a row without a file `words`.
const WORDS: &[u8] = b"run l.txt - - h.csv";

/// The status of a row without a file `status`.
const STATUS: &[u8] = b"0\n";

/// The status if not the whole text was written.
const CUT_OFF: &[u8] = b"4\n";

/// A row: the files of its folder, and after them the shared files.
#[derive(Drop)]
pub struct Row {
    files: Vec<File>,
}

/// The bytes of the first file of this name.
pub(crate) fn file_of<'a>(files: &'a [File], name: &str) -> Option<&'a [u8]> {
    files
        .iter()
        .find(|(file, _)| file.bytes() == name.as_bytes())
        .map(|(_, bytes)| bytes.as_slice())
}

/// Adds the words of a text, which are separated by blanks.
fn add_words(alloc: Global, words: &mut Vec<Word>, text: &[u8]) -> Result<(), AllocError> {
    for word in str::from_utf8(text).unwrap_or("").split_whitespace() {
        words.push(Name::new(alloc, word.as_bytes())?)?;
    }
    Ok(())
}

/// Adds a copy of a file.
fn add_copy(alloc: Global, files: &mut Vec<File>, file: &File) -> Result<(), AllocError> {
    let name = file.0.copy(alloc)?;
    files.push((name, Vec::from_slice(alloc, file.1.as_slice())?))?;
    Ok(())
}

/// Adds a line with the names of the fetched files, with a `!` after a name whose fetch failed.
fn add_tried(seen: &mut Vec<u8>, attempts: &[Attempt]) -> Result<(), AllocError> {
    let mut between: &[u8] = b"";
    for attempt in attempts {
        seen.extend_from_slice(between)?;
        seen.extend_from_slice(attempt.name.bytes())?;
        if attempt.failed {
            seen.push(b'!')?;
        }
        between = b" ";
    }
    seen.push(b'\n')?;
    Ok(())
}

impl Row {
    /// A row of the files of its folder, and after them the shared files.
    pub fn new(files: Vec<File>) -> Row {
        Row { files }
    }

    /// The files, its own before the shared ones.
    pub fn files(&self) -> &[File] {
        self.files.as_slice()
    }

    /// The bytes of its first file of this name, or `none`.
    fn bytes<'a>(&'a self, name: &str, none: &'a [u8]) -> &'a [u8] {
        file_of(self.files.as_slice(), name).unwrap_or(none)
    }

    /// The words of the command line.
    pub fn words(&self, alloc: Global) -> Result<Vec<Word>, AllocError> {
        let mut words = Vec::new(alloc);
        add_words(alloc, &mut words, self.bytes("words", WORDS))?;
        Ok(words)
    }

    /// The input.
    pub fn typed(&self) -> &[u8] {
        self.bytes("typed", b"")
    }

    /// The lines of its file `mishaps`, without the last line feed.
    pub fn mishaps(&self) -> &str {
        let text = str::from_utf8(self.bytes("mishaps", b"none")).unwrap_or("");
        text.strip_suffix('\n').unwrap_or(text)
    }

    /// The expected observation of a run: the text, a line with the status, and the attempted files, if the row has
    /// them.
    pub fn wanted(&self, alloc: Global, mishap: &Mishap<'_>) -> Result<Vec<u8>, AllocError> {
        let mut wanted = Vec::new(alloc);
        self.add_wanted(mishap, &mut wanted)?;
        Ok(wanted)
    }

    fn add_wanted(&self, mishap: &Mishap<'_>, wanted: &mut Vec<u8>) -> Result<(), AllocError> {
        let text = self.bytes("text", b"");
        let written = mishap.written(text);
        wanted.extend_from_slice(written)?;
        let status = if written.len() < text.len() {
            CUT_OFF
        } else {
            self.bytes("status", STATUS)
        };
        wanted.extend_from_slice(status)?;
        wanted.extend_from_slice(self.bytes("tried", b""))?;
        Ok(())
    }

    /// The files of a run. A file changed by the failure comes first, and so is the one that is fetched.
    pub fn files_after(&self, alloc: Global, mishap: &Mishap<'_>) -> Result<Vec<File>, AllocError> {
        let mut files = Vec::new(alloc);
        self.add_after(alloc, mishap, &mut files)?;
        Ok(files)
    }

    fn add_after(
        &self,
        alloc: Global,
        mishap: &Mishap<'_>,
        files: &mut Vec<File>,
    ) -> Result<(), AllocError> {
        mishap.add_changed(alloc, self.files.as_slice(), files)?;
        for file in self.files.as_slice() {
            add_copy(alloc, files, file)?;
        }
        Ok(())
    }

    /// The observation of a run: the printed text, a line with the status, and the attempted files, if the row has
    /// them.
    pub fn seen(
        &self,
        alloc: Global,
        out: &MemSink,
        status: u8,
        files: &MemFiles,
    ) -> Result<Vec<u8>, AllocError> {
        let mut seen = Vec::new(alloc);
        self.add_seen(out, status, files, &mut seen)?;
        Ok(seen)
    }

    fn add_seen(
        &self,
        out: &MemSink,
        status: u8,
        files: &MemFiles,
        seen: &mut Vec<u8>,
    ) -> Result<(), AllocError> {
        seen.extend_from_slice(out.written())?;
        seen.push(b'0'.saturating_add(status))?;
        seen.push(b'\n')?;
        if file_of(self.files.as_slice(), "tried").is_some() {
            add_tried(seen, files.attempted())?;
        }
        Ok(())
    }
}
