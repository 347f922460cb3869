//! The outside of a run: sources, sinks and files of bytes, in memory and by a trait for each.
//!
//! It promises the crates above that a call on the outside answers `Failed` only where a count of
//! faults rose, that a source read to its end gives all of its bytes, and that what is written is
//! put whole or up to where a call failed. It knows nothing of values, statements or tables.
#![tactic(auto)]

mod all;
mod calls;
mod failures;
mod filling;
mod memory_files;
mod memory_sink;
mod memory_source;
mod named_file;
mod sure;

pub use all::{ReadAll, read_all, write_all};
pub use calls::{Failed, Files, Sink, Source};
pub use memory_files::MemoryFiles;
pub use memory_sink::MemorySink;
pub use memory_source::MemorySource;
pub use sure::{SureFiles, SureSink, SureSource};
