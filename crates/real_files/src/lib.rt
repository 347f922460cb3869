//! The outside of a run in the real world: standard streams, and the files of a file system.
//!
//! `Input` is a source over any reader, `Output` a sink over any writer, and `Disk` the files of a
//! file system. It promises the crates above what `outside` asks of each: a call that fails is
//! counted once. What a stream or a file holds isn't told, so that a file is changed whole, with its
//! mode and nothing left behind, is no clause. It knows nothing of scripts or dumps.
#![tactic(auto)]

mod disk;
mod replacing;
mod streams;

pub use disk::Disk;
pub use streams::{Input, Output};
