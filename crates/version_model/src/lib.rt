//! The model of a database without layout: a whole table for each table version, and how writes,
//! evolutions and drops change them all.
//!
//! It promises the crates above that a write changes the written table to the rows that are given,
//! leaves the other tables of its working set, and carries the change along the walk by the
//! operators' mappings (`specs/Writes.antt`); that an evolution makes the tables of its new
//! operators from their sources and changes no other one (`specs/Evolving.antt`); that a drop takes
//! the tables of the operators that go and changes no other one (`specs/Dropping.antt`); and that
//! after each of these every operator relates its two sides (`specs/Sound.antt`). What the calls of a
//! database answer, whatever it keeps, stands in `specs/Databases.antt`. The calls make the tables of
//! an evolution from those that are lent to them, and keep none; what a write makes is told by its
//! changes in a crate above. The crate knows operators by their laws alone, and nothing of names in
//! statements, of layouts or of replies.
//!
//! Lemmas that crates above may use stand in proofs/: `NumberedLaws`, `NowLaws`, `PutLaws`,
//! `RunLaws`, `CrossingLaws`, `TreeLaws`, `WriteLaws`, `HeadingLaws`, `EvolveLaws`, `DropLaws`,
//! `GrownLaws`, `ProgressLaws`, `AmongLaws`, `BoundLaws`, `ToldLaws`, `AscendingLaws`, `MakingLaws`,
//! `EvolvedLaws` and `LiveLaws`.
#![tactic(auto)]

mod crossing;
mod evolve;
mod laws;
mod live;
mod now;
mod numbered;
mod progress;

pub use crossing::{Way, way_of};
pub use evolve::{as_refusal, make_newer};
pub use laws::{
    drops_keep_the_state, evolutions_keep_the_state, writes_keep_the_state,
    writes_of_the_same_are_still,
};
pub use live::{keep_live_operators, keep_live_tables};
pub use now::{copy_now, memory_at, memory_now, put_side, side_now};
pub use numbered::{Numbered, latest_of, place_of, replace_all, value_of};
pub use progress::{Before, Made};
