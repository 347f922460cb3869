//! The notes of versions: what a write changed of the rows of each version that is watched.
//!
//! It promises the crates above that the note of a run of a write, made from the changes that the write
//! carried, is the difference of the version's tables before and after it (`specs/Notes.antt`), that
//! watchers which show tables may be told it and then show those of after it (`specs/Mirrors.antt`), and
//! that the first note of a version has all its rows as added. A note takes time in the rows that changed
//! in the tables of its version, and not in their sizes. It knows nothing of statements, and not how
//! changes are carried.
//!
//! Lemmas that crates above may use stand in proofs/: `RunLaws`, `WatchLaws` and `ToldLaws`.
#![tactic(auto)]

mod changes;
mod first;
mod runs;

pub use first::first_note;
pub use runs::prepare_runs;
