//! Input and output: files fetched by name, an input read piece by piece and an output written
//! piece by piece, each as a trait whose contract states what a caller may rely on, with an
//! implementation for the system and one in memory for tests; and printing helpers: pieces of a
//! text, a text of a fixed capacity, and a buffer; and what a program's `main` begins with.
//!
//! Uses names of `m_places` and texts of `m_text`. Knows nothing of what the bytes mean.
#![tactic(auto)]

mod buffered;
mod counts;
mod edge;
mod files;
mod fixed;
mod host;
mod mem_files;
mod mem_sink;
mod mem_source;
mod pieces;
mod sink;
mod source;
mod start;

pub use buffered::{BufferedSink, Origin, Printed};
pub use edge::{Disk, Opener, Reader, Writer};
pub use files::{Attempt, FetchFault, Files};
pub use fixed::FixedText;
pub use host::{HostFiles, HostSink, HostSource, read_whole};
pub use mem_files::MemFiles;
pub use mem_sink::MemSink;
pub use mem_source::MemSource;
pub use pieces::give_pieces;
pub use sink::{Sink, give_all};
pub use source::{Failed, Source};
pub use start::{command_words, exit_after};
